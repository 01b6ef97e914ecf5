//! What a download has of its payload: its landed blocks, who gave them, and its verified pieces.
#![tactic(auto)]

mod blocks;
mod giver;
mod laws;
mod new_runs;
mod start;
mod table;

pub use giver::Giver;
pub use laws::kept_is_afresh;
pub use new_runs::NewRuns;
pub use table::Table;
