//! What is true of the array's state at any time: of a state that was just mounted, and after each of the machine's
//! events. The laws are contracts of functions with no code, over the state and the events of `fa_machine`.
#![tactic(auto)]

pub mod sound;
