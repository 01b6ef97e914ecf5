//! What is held against a mirror that brings a payload's own bytes: nothing but what its links failed. Laws alone.
#![tactic(auto)]

mod laws;

pub use laws::{
    brought_downloads_only_complete, claims_are_of_chosen_pieces, delivered_blocks_are_read,
    faithful_mirrors_are_blameless, lone_downloads_end_well, unlisted_blocks_are_read,
    unlisted_complete_downloads_are_whole, unlisted_downloads_only_complete,
};
