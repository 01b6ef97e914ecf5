//! What a run tells: what the calls of a console are answered (those that ask are read off the run, by the history before
//! the call), how it ends, and what it prints then.
#![tactic(auto)]

mod changed;
mod codes;
mod endings;
mod ends;
mod failures;
mod files;
mod kinds;
mod laws;
mod lines;
mod lists;
mod options;
mod paths;
mod pieces;
mod queued;
mod replies;
mod reporting;
mod speeds;
mod stats;
mod statuses;
mod told;
mod uris;
mod views;
mod windows;
mod writing;

pub use changed::{asks, changed_reply};
pub use codes::{code_by, code_of_end};
pub use dl_kinds::NoMemory;
pub use endings::{MetainfoFault, RunEnding};
pub use failures::{end_in, ending, ends_of};
pub use kinds::Reply;
pub use laws::{
    changes_are_applied, limits_are_told, payloads_are_named, summaries_are_one,
    worked_replies_are_told,
};
pub use lists::{FileViews, Pairs, StatusViews, UriViews};
pub use replies::reply_to;
pub use reporting::{report, report_refusal};
pub use speeds::{SPEED_MS, SPEED_SECONDS};
pub use views::{FileView, StatView, StatusView, UriStatus, UriView};
