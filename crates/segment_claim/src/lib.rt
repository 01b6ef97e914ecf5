//! Claims of a download's blocks: which blocks a worker gets, and of which mirror.
#![tactic(auto)]

mod claims;
mod free;
mod laws;
mod limits;
mod open;
mod own;
mod scene;
mod stretches;
mod views;

pub use claims::Claims;
pub use dl_kinds::Claim;
pub use free::Found;
pub use laws::{limits_are_told, steals_are_of_claims};
pub use limits::{Limits, MAX_SPLIT};
pub use views::Views;
