//! What comes of bytes that are fed to a negotiation.
use std::alloc::{Allocator, Global};

/// How the negotiation stands.
#[derive(Clone, Copy)]
pub enum Step {
    /// More bytes are needed.
    More,
    /// Transmission begins: what the client sends next are requests.
    Go,
    /// The client ended the connection.
    Aborted,
    /// The server closes the connection, for this cause.
    Closed(CloseCause),
}

/// Why the server closes the connection.
#[derive(Clone, Copy)]
pub enum CloseCause {
    /// Cause 1: a client flag other than bits 0 and 1.
    UnknownFlag,
    /// Cause 2: an option that does not begin with the magic number.
    WrongMagic,
    /// Cause 3: more than 65,536 bytes of data announced for an option.
    TooLong,
    /// Cause 4: EXPORT_NAME with a name that is neither empty nor the export's.
    UnknownName,
}

/// What came of a piece of the client's bytes.
#[derive(Drop)]
pub struct Fed<A: Allocator = Global> {
    /// How many bytes of the piece were used, from its beginning.
    pub used: usize,
    /// What the server says to them.
    pub out: Vec<u8, A>,
    /// How the negotiation stands.
    pub step: Step,
}
