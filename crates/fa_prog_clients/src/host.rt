//! What serving clients takes of the machine that a server runs on.
use std::io::Eprint;
use std::net::{Net, TcpListener, TcpStream};
use std::sync::Wait;
use std::time::Clock;

/// What each thread of a server has: sockets, the memory of the process, a clock, standard error, and other threads that it may wait for.
pub trait Networked: Net<Listener = TcpListener, Stream = TcpStream>
    + AllocGlobal
    + Clock
    + Eprint
    + Wait {}

impl<
    R: Net<Listener = TcpListener, Stream = TcpStream> + AllocGlobal + Clock + Eprint + Wait,
> Networked for R {}
