//! What was flushed survives a crash: laws over every run and every cut of power in it, each the contract of a function with no code.
//! Behind a crash each slot has a cell that it had since its image's last accepted sync, and an accepted header stands. Runs, events and
//! worlds are those of `fa_machine`. What a flush promises stands in `requests`, `stores` and `images`, what is mounted behind a crash in
//! `headers`, `mounts` and `recovering`, and from one life of an array to the next in `lives`.
#![tactic(auto)]

pub mod beginnings;
pub mod crashes;
pub mod headers;
pub mod images;
pub mod lives;
pub mod mounts;
pub mod recovering;
pub mod requests;
pub mod stores;
