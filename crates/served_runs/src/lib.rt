//! Runs to which mirrors in memory bring what they serve: what the turns of workers bring of it, what is held against these
//! mirrors, and how such runs end. Laws alone.
#![tactic(auto)]

mod laws;
mod over;
mod serving;

pub use laws::{brought_runs_end_well, finished_runs_are_done};
pub use over::{
    linked_runs_have_histories, linked_runs_leave_other_files, linked_runs_survive_crashes,
    runs_complete_uris, runs_complete_what_is_served, runs_show_their_links,
    runs_show_why_unfinished, runs_spare_serving_mirrors,
};
pub use serving::{
    parts_of_payloads_are_given, runs_are_faithful, runs_tell_right_lengths,
    served_claims_are_faithful, work_is_answered,
};
