// The limits of a head.

/// The most bytes of a head.
pub const MAX_HEAD_BYTES: usize = 65_536;

/// The most fields of a head.
pub const MAX_HEAD_FIELDS: usize = 64;
