//! Clocks: which moment it is, and pauses; and a clock in memory.
#![tactic(auto)]

mod clock;
mod laws;
mod memory;

pub use clock::{Clock, LATEST_MOMENT};
pub use laws::limits_are_told;
pub use memory::MemClock;
