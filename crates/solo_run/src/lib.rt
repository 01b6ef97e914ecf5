//! A run over one link, from the words of its command line to its summary.
#![tactic(auto)]

mod laws;
mod over;
mod run;
mod work;

pub use laws::bounds_are_told;
pub use run::run_alone;
pub use run_lifecycle::Finished;
