//! A payload on a disk is checked against the piece hashes of a version 2 torrent, and repaired from another copy, block
//! by block.
#![tactic(auto)]

mod ahead;
mod checking;
mod counts;
mod files;
mod job;
mod mending;
mod names;
mod payload;
mod placing;
mod repair_err;
mod syncing;
mod watching;
mod writing;

pub use counts::Counts;
pub use payload::repair;
pub use repair_err::RepairErr;
pub use watching::{RepairWatch, Unwatched};
