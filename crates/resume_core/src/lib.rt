//! The store: what is durable of a download is found again, written, and made to last.
#![tactic(auto)]

mod control_files;
mod fault;
mod finishing;
mod holding;
mod laws;
mod lens;
mod listing;
mod matching;
mod names;
mod opened;
mod opening;
mod progress;
mod refusing;
mod resuming;
mod rows;
mod runs;
mod sharing;
mod surveying;
mod whole_files;

pub use fault::StoreErr;
pub use finishing::finish;
pub use laws::{
    finished_files_are_sound, images_list_within, same_files_give_the_same,
    saved_files_give_what_is_listed, saves_give_either, stretched_files_keep_what_is_given,
    torn_files_keep_what_is_given,
};
pub use progress::save;
pub use refusing::OpenErr;
pub use resuming::resume;
pub use runs::{read_piece, write_run};
pub use sharing::shares_name;
