//! Marks that are held against mirrors which hold a piece, and the bad answers that pay for them. Laws alone.
#![tactic(auto)]

mod laws;

pub use laws::{marks_are_paid, served_downloads_only_complete, served_pieces_never_die};
