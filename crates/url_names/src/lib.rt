//! The names of files by their URLs.
#![tactic(auto)]

mod names;

pub use names::name_of_url;
