//! A token bucket, which says how many bytes may be read now so that a rate is kept.
#![tactic(auto)]

mod bucket;
mod laws;

pub use bucket::{Bucket, Take};
pub use laws::{levels_follow_calls, rate_is_kept, waits_are_exact};
