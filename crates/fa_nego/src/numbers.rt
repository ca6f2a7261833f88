//! The numbers of the handshake: NBD protocol text, "Flag fields" and "Values".

/// The client's flag by which it declines the zeros at the end of the answer to EXPORT_NAME.
pub const FLAG_NO_ZEROES: u32 = 2;

// Options.

/// Asks for transmission in the old way, which has no reply that refuses.
pub const OPT_EXPORT_NAME: u32 = 1;

/// Ends the connection.
pub const OPT_ABORT: u32 = 2;

/// Asks for the names of the exports.
pub const OPT_LIST: u32 = 3;

/// Asks what an export is.
pub const OPT_INFO: u32 = 6;

/// Asks what an export is, and for transmission to begin.
pub const OPT_GO: u32 = 7;

// Types of replies to options.

/// An option was done.
pub const REP_ACK: u32 = 1;

/// The name of an export.
pub const REP_SERVER: u32 = 2;

/// Information of one kind.
pub const REP_INFO: u32 = 3;

/// The server does not know the option.
pub const REP_ERR_UNSUP: u32 = 0x8000_0001;

/// The option's data cannot be read.
pub const REP_ERR_INVALID: u32 = 0x8000_0003;

/// The option names no export of the server.
pub const REP_ERR_UNKNOWN: u32 = 0x8000_0006;

// Kinds of information.

/// The size and the transmission flags.
pub const INFO_EXPORT: u16 = 0;

/// The name.
pub const INFO_NAME: u16 = 1;

/// Which lengths and offsets requests may have.
pub const INFO_BLOCK_SIZE: u16 = 3;
