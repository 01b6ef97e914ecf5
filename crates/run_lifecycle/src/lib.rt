//! How a run begins and how it ends, whoever works in between, and what follows of it.
#![tactic(auto)]

mod beginning;
mod console;
mod ended;
mod ends;
mod finishing;
mod laws;

pub use beginning::{Begun, Unbegun, begin};
pub use console::{ConsoleTerms, is_console_on};
pub use ended::{Ended, Finished};
pub use finishing::{finish, refuse};
pub use laws::{
    begun_runs_are_stopped, disks_keep_runs, losses_come_of_workers, runs_end_as_shown,
    runs_have_whole_histories, runs_leave_other_files, runs_print_one_text, runs_show_their_disk,
    runs_survive_crashes, unbegun_runs_only_read, workers_show_their_link,
};
