//! A run of the program, from the words of its command line to its exit status: of downloads over one link or over many, with a
//! console or without, a load that checks itself, a folder that is served over HTTP, or a check of a version 2 payload.
#![tactic(auto)]

mod arms;
mod laws;
mod limits;
mod needs;
mod running;

pub use laws::limits_are_told;
pub use limits::CONSOLE_DOORS;
pub use needs::{Needs, needs_of};
pub use running::run;
pub use shared_run::{FinishedRun, MAX_DOORS, MAX_LINKS};
