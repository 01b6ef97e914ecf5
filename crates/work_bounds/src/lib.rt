//! How long the history of a download gets whose claims are taken one after the other. Laws alone.
#![tactic(auto)]

mod laws;

pub use laws::{
    claims_are_bounded, histories_are_bounded, marks_are_tries, pieces_are_cleared_seldom,
    worked_bounds_are_told,
};
