//! The files of a payload: which lists of files are a layout, which parts of the files a slice of the payload is, and
//! what is to be fetched of it.
#![tactic(auto)]

mod files;
mod jobs;
mod laws;
mod layout;
mod paths;

pub use files::{FileLen, LayoutErr, Part};
pub use jobs::{Job, JobPart, JobParts};
pub use laws::{limits_are_told, parts_hold_slices};
pub use layout::Layout;
pub use paths::{MAX_PART_LEN, MAX_PARTS, NUL, SLASH, is_valid_part};
