// Limits of a run.

/// The most links of a run.
pub const MAX_LINKS: u16 = 64;

/// The most doors of a run.
pub const MAX_DOORS: u16 = 16;
