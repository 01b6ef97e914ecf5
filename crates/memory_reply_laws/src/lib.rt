//! Laws of the replies that mirrors in memory give: how they are read, true ones and bad ones, and what they are given
//! for. The functions do nothing when they run.
#![tactic(auto)]

mod laws;

pub use laws::{bad_replies_are_read, fronts_are_read, replies_are_read, requests_are_answered};
