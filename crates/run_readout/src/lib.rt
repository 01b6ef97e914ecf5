//! A line that shows how far a run has come, drawn beside it: what it shows is seen at the disk, the links and the clock that the
//! run is given, and nothing of the run depends on it.
#![tactic(auto)]

mod check;
mod disk;
mod links;
mod listed;
mod progress;
mod sink;
mod text;

pub use check::CheckReadout;
pub use disk::WatchedDisk;
pub use links::{Terminal, WatchedLinks};
pub use progress::Progress;
pub use sink::WatchedSink;
pub use text::{readout, size_text, time_text};
