// What a step leads to.

use crate::FtpStep;
use reply_reader::Loss;

/// What a step leads to.
#[derive(Clone, Copy, Debug, PartialEq, Eq)]
pub enum FtpTurn {
    /// More of the reply is due.
    Due,
    /// The dialogue goes on at this step.
    Next(FtpStep),
    /// The file has this size.
    Sized(u64),
    /// A data connection is opened to this port.
    Dials(u16),
    /// The data connection gives the file.
    Opens,
    /// The file doesn't come.
    Lost(Loss),
}
