//! The real things: files, TCP links and doors, a clock and a program's output. Of each but the clock only its count of faults is told, which
//! rises at each call that the system fails.
#![tactic(auto)]

mod clock;
mod disk;
mod doors;
mod faults;
mod files;
mod folder;
mod lasting;
mod links;
mod opened;
mod output;
mod patience;
mod rests;

pub use clock::StdClock;
pub use disk::FileDisk;
pub use doors::{TcpDoors, listen_on};
pub use folder::{EdgeDisk, FolderDisk};
pub use links::TcpLinks;
pub use output::StdOut;
