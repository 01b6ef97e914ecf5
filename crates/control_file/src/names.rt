// The names of control files.

/// Behind the name of a payload, that of its control file (aria2 manual, "Control File").
pub const CONTROL_SUFFIX: &str = ".aria2";

/// .. and the one under which a control file is written before it takes the place of the other.
pub const TEMPORARY_SUFFIX: &str = ".aria2__temp";
