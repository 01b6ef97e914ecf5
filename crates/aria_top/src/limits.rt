// Limits of the program.

/// How many doors a console has.
pub const CONSOLE_DOORS: u16 = 4;
