//! The page map as plain lists, beside which tests put the one in tables.
#![tactic(auto)]

mod plain_map;
mod plain_slots;

pub use plain_map::PlainMap;
