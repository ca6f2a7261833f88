//! The tests of the crates' public calls: what no clause says and no process shows. They stand in a crate of their own, since a crate with
//! tests is proved once with them and once without.
#![tactic(auto)]

/// Ends a test with an error, unless the condition holds: `ensure!(CONDITION)`, and in a loop
/// `ensure!(CONDITION, at WHERE)`.
macro_rules! ensure {
    ($is_so:expr) => {
        if !$is_so {
            return Err($crate::told::failed(stringify!($is_so)));
        }
    };
    ($is_so:expr, at $place:expr) => {
        if !$is_so {
            return Err($crate::told::failed_at(stringify!($is_so), $place));
        }
    };
}

#[cfg(test)]
mod calendars;
#[cfg(test)]
mod cert;
#[cfg(test)]
mod cmds;
#[cfg(test)]
mod fails;
#[cfg(test)]
mod io;
#[cfg(test)]
mod maps;
#[cfg(test)]
mod nego;
#[cfg(test)]
mod reopened;
#[cfg(test)]
mod rows;
#[cfg(test)]
mod spelling;
#[cfg(test)]
mod texts;
#[cfg(test)]
mod told;
#[cfg(test)]
mod types;
#[cfg(test)]
mod wire;
