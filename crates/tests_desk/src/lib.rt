//! Small states at a desk, callers of any desk, and threads at one desk.
#![tactic(auto)]

mod callers;
mod counter;
mod shelf;
#[cfg(test)]
mod tests;
mod threads;

pub use callers::repeat;
pub use counter::Counter;
pub use shelf::{Book, Shelf};
pub use threads::{count_together, give_back_late, read_at_a_chair};
