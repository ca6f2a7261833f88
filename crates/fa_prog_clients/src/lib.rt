//! The clients of a server: how they come to it, and how its sessions serve them.
#![tactic(auto)]

mod accept_queue;
mod accepting;
mod connection;
mod export;
mod host;
mod sessions;
mod socket;

pub use accept_queue::AcceptQueue;
pub use accepting::accept_clients;
pub use connection::ConnectionMemory;
pub use host::Networked;
pub use sessions::{Service, serve_clients};
pub use socket::stop_accepting;
