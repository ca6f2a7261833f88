//! The settings of an array and its server, read from a TOML text, and the command line of the program.
#![tactic(auto)]

mod address;
mod command_line;
mod fault;
mod help;
mod key;
pub mod laws;
mod names;
mod reader;
mod settings;
mod shape;
mod table;
mod terms;
mod values;

pub use command_line::{PlansFile, Subcommand, command};
pub use fault::SettingsFault;
pub use key::Key;
pub use reader::found_at;
pub use settings::Settings;
pub use terms::Terms;
