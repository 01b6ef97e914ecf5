//! Why a command line is refused and why downloads failed, in lines for people, which are to stand on standard error.
#![tactic(auto)]

mod ends;
mod failures;
mod faults;
mod lines;
mod modes;
mod refusals;
mod runs;
mod values;

pub use failures::{Failure, LastLoss, Losses};
pub use faults::{WordFault, fault_in};
pub use runs::{Edges, add_failure, add_refusal, reasons};
