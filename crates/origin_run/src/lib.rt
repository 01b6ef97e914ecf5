//! A folder that is served over HTTP at all doors at once.
#![tactic(auto)]

mod keeping;
mod serving;
mod sharing;

pub use serving::{ServedFolder, serve_folder};
