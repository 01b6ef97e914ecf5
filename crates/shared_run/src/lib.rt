//! A run over all of its links at once, and with a console, from the words of its command line to its summary.
#![tactic(auto)]

mod finished;
mod laws;
mod limits;
mod running;
mod stop;
mod taking_part;
mod together;
mod work;

pub use finished::FinishedRun;
pub use laws::limits_are_told;
pub use limits::{MAX_DOORS, MAX_LINKS};
pub use running::run_shared;
