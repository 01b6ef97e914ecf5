//! What came of parts of resources, one after the other, over one link, and how long a resource is: definitions and laws,
//! whatever a part is asked for by. The functions do nothing when they run.
#![tactic(auto)]

mod laws;

pub use laws::{fetched_bytes_fit_their_parts, fetched_is_one, parts_follow};
