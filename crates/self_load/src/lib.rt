//! A large load over mirrors, a disk and clocks in memory, which checks itself.
#![tactic(auto)]

mod inner;
mod laws;
mod outcome;
mod running;

pub use laws::limits_are_told;
pub use load_setup::load_of;
pub use outcome::Outcome;
pub use running::{Loaded, run_load};
