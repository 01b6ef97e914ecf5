//! Where the URLs of files on FTP servers lead.
#![tactic(auto)]

mod place;

pub use place::{FtpErr, FtpPlace};
