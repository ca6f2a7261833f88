//! What looking takes of the machine that a program runs on.
use std::io::Eprint;
use std::net::{Net, TcpListener, TcpStream};
use std::random::RandomSource;
use std::sync::Wait;
use std::time::Clock;

/// What a thread has whom others ask, or that asks: sockets, the memory of the process, a clock, standard error, random numbers, and leave
/// to wait.
pub trait LooksHost: Net<Listener = TcpListener, Stream = TcpStream>
    + AllocGlobal
    + Clock
    + Eprint
    + RandomSource
    + Wait {}

impl<
    R: Net<Listener = TcpListener, Stream = TcpStream>
        + AllocGlobal
        + Clock
        + Eprint
        + RandomSource
        + Wait,
> LooksHost for R {}
