//! The files of a payload on a disk, in a folder: they and their folders are made, slices of the payload are read and
//! written, and the files are made to last.
#![tactic(auto)]

mod fitting;
mod folders;
mod laws;
mod names;
mod reading;
mod syncing;
mod writing;

pub use fitting::fit_files;
pub use folders::make_folders;
pub use laws::{files_fill, names_differ, same_files_hold};
pub use names::file_name;
pub use reading::read_slice;
pub use syncing::sync_files;
pub use writing::write_slice;
