// The steps of a dialogue.

/// A step of a dialogue with an FTP server (RFC 959 section 5.4): a reply is awaited at each, and at each but the first a
/// command is sent for it.
#[derive(Clone, Copy, Debug, PartialEq, Eq)]
pub enum FtpStep {
    Greeting,
    User,
    Password,
    /// Bytes are to come as they stand in the file.
    Binary,
    Size,
    Passive,
    /// The data is to begin at a place behind the file's first byte.
    Restart,
    Retrieve,
}
