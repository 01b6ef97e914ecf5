// Limits of turns.

/// The most blocks of one delivery.
pub const MAX_DELIVERY: u32 = 64;

/// The most bytes that are let go at once.
pub const MAX_ALLOWANCE: u32 = 1_048_576;

/// The most events of a run before its last turns.
pub const MAX_ENTRIES: u32 = 16_777_216;
