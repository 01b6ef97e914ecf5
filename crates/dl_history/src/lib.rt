//! What happens to one download, and what its events say of its blocks, pieces and claims.
#![tactic(auto)]

mod laws;

pub use laws::{
    accounts_match_events, histories_are_sound, unopened_accounts_are_alike,
    worked_histories_are_told,
};
