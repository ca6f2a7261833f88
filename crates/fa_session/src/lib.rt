//! One NBD connection over a block store: the handshake, then the client's requests in turn.
#![tactic(auto)]

mod exchange;
mod handshake;
pub mod laws;
mod replies;
mod session;
mod session_end;
mod stream_end;
mod transmission;

pub use session::serve_stream;
pub use session_end::SessionEnd;
