//! The steps of a dialogue with an FTP server that fetches a file: what is said at each, and what its reply leads to.
#![tactic(auto)]

mod answers;
mod commands;
mod laws;
mod meaning;
mod step;
mod turn;

pub use answers::answer;
pub use commands::command;
pub use laws::{answers_are_one_and_stay, answers_follow_their_step, commands_are_lines};
pub use step::FtpStep;
pub use turn::FtpTurn;
