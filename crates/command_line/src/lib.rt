//! What the words of the command line mean: values of options, and what is to be downloaded.
#![tactic(auto)]

mod command;
mod laws;
mod line;
mod options;
mod source;

pub use laws::lines_are_one;
pub use line::{CommandLine, read};
pub use source::Source;
