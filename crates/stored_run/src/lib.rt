//! A run and the disk on which its downloads stand: what is written when, and what every crash leaves of it.
#![tactic(auto)]

mod beginning;
mod calls;
mod checking;
mod claims;
mod delivering;
mod due;
mod ending;
mod filling;
mod following;
mod granting;
mod jobs;
mod landing;
mod noticing;
mod opening;
mod run;
mod saves;
mod saving;
mod sealing;
mod settling;
mod stopping;

pub use delivering::DELIVERY_EVENTS;
pub use following::runs_follow;
pub use run::{StoredRun, StoredView};
