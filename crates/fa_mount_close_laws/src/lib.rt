//! Laws of an array from one mount to the next, each the contract of a function with no code: an array that was closed is mounted again
//! as it was (`closing`), and what runs over the images of an array is a run of its machine (`runs`).
#![tactic(auto)]

pub mod closing;
pub mod runs;
