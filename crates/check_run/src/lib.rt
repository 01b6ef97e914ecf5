//! The check of a payload by the metainfo file of a version 2 torrent, and its repair from a copy, from the names of the
//! files to the line that is printed.
#![tactic(auto)]

mod checking;
mod file;
mod file_err;
mod laws;
mod limits;
mod line;

pub use checking::check_payload;
pub use laws::{checks_have_statuses, limits_are_told};
pub use limits::MAX_CHECK_THREADS;
pub use payload_repair::{RepairWatch, Unwatched};
