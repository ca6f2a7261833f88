//! Sizes that several layers share.

/// How many bytes the header of an image has.
pub const HEADER_BYTES: usize = 112;

/// How many bytes a slot has behind its page: the tag, and a digest of both.
pub const TAG_BYTES: usize = 64;
