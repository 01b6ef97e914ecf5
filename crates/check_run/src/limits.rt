// Limits of a check.

/// The most threads that hash at once.
pub const MAX_CHECK_THREADS: usize = 16;
