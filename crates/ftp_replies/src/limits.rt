// The limits of a reply, and of what it tells.

/// The most bytes of a line, with its CR LF.
pub const MAX_LINE_BYTES: usize = 512;

/// The most lines of a reply.
pub const MAX_REPLY_LINES: usize = 64;

/// Sizes of files are below this.
pub const SIZE_LIMIT: u64 = 1 << 63;
