//! The call by which a command line adds its download.
#![tactic(auto)]

mod calls;
mod file;
mod laws;
mod refusals;

pub use calls::first_call;
pub use file::{MAX_METAINFO_FILE, read_metainfo_file};
pub use laws::{limits_are_told, lines_are_lawful};
pub use refusals::SourceErr;
