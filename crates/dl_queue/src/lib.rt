//! The queue of downloads: which are active, which wait, and which have stopped.
#![tactic(auto)]

mod calls;
mod kinds;
mod laws;
mod lines;
mod listed;
mod named;
mod places;
mod queue;
mod room;

pub use kinds::{Added, Ending, How, MAX_DOWNLOADS, QueueErr, Queued, Stopped};
pub use laws::limits_are_told;
pub use listed::{ActiveGids, QueuedDownloads, StoppedDownloads};
pub use queue::Queue;
