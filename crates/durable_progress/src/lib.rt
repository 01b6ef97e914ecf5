//! What is durable of a download while its run goes on: what the images of a disk have of it, and what its saves promise.
#![tactic(auto)]

mod laws;
mod stepping;

pub use laws::{promises_are_kept, steps_hold, wants_are_apart};
pub use stepping::{finish_held, save_held, write_held};
