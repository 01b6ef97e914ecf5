//! The pure core of a run: what may happen, one event after the other, what the events say of its downloads, and the
//! machine that keeps it.
#![tactic(auto)]

mod added;
mod adding;
mod applied;
mod asked;
mod calling;
mod calls;
mod changes;
mod choosing;
mod claiming;
mod clashes;
mod done;
mod ends;
mod entries;
mod events;
mod following;
mod gids;
mod halts;
mod handed;
mod journal;
mod keyed;
mod laws;
mod machine;
mod notice_log;
mod notices;
mod noting;
mod offers;
mod opening;
mod pausing;
mod plain;
mod rests;
mod spares;
mod telling;
mod wants;

pub use applied::Applied;
pub use asked::Lengths;
pub use calls::Call;
pub use ends::End;
pub use events::Event;
pub use gids::GID_STEP;
pub use handed::{Handed, HandedPieces};
pub use journal::{Journal, MAX_BEFORE_TURN, MAX_EVENTS, TURN_EVENTS};
pub use laws::{
    accounts_match_runs, downloads_are_legal, downloads_stay, known_downloads_are_idle,
    limits_are_told, notices_go_on, steps_stay_legal, worked_answers_are_told,
    worked_notices_are_told, worked_runs_are_told,
};
pub use machine::Machine;
pub use notices::{Cursor, MOST_NOTICES, Notice, NoticeKind, Notices};
pub use offers::{Offer, Offered};
pub use wants::{payload_folder, payload_name, wants_stay};
