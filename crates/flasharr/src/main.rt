//! The program: its arguments, its input and its output go to `start`, and it ends with the status that comes of them. The commands that mount
//! an array and use it are here, `serve` and `talk --array`; the others are in crates of their own.
#![tactic(auto)]

mod conversation;
pub mod laws;
mod program;
mod serve;
mod talk;

use crate::program::Status;
use std::io::IsTerminal;
use std::net::{TcpListener, TcpStream};
use std::{env, io};

fn main(rt: HostRuntime) -> Status {
    let watched = rt.stderr().is_terminal();
    // The proof of a call over this runtime's sockets wants their types among those of the caller.
    let _sockets: Option<(TcpListener, TcpStream)> = None;
    program::start(
        &rt,
        rt.alloc(),
        watched,
        env::args(&rt),
        &mut rt.stdin(),
        &mut io::writer(&rt),
    )
}
