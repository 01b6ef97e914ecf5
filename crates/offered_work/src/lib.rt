//! What an active download has to offer between the turns of a worker that works alone. Laws alone.
#![tactic(auto)]

mod laws;

pub use laws::active_have_offers;
