//! Where work is left, a claim can be chosen. Laws alone.
#![tactic(auto)]

mod laws;

pub use laws::free_choices_are_found;
