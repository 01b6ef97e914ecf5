//! Requests for a range of a resource over HTTP/1.1, and what the heads of their replies mean.
#![tactic(auto)]

mod asked;
mod empty_line;
mod fields;
mod framing;
mod laws;
mod persistence;
mod range;
mod verdict;

pub use asked::{Asked, request};
pub use empty_line::has_empty_line;
pub use fields::location;
pub use framing::Framing;
pub use laws::{limits_are_told, numbers_and_ranges_are_read};
pub use persistence::persists;
pub use range::{ContentRange, read_range};
pub use verdict::{Verdict, classify};
