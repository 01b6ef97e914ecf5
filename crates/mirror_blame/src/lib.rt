//! Marks of mirrors that failed at pieces, and which mirror is chosen by them.
#![tactic(auto)]

mod blame;
mod laws;
mod marks;
mod places;

pub use blame::Blame;
pub use laws::counting_is_stable;
pub use marks::Marks;
