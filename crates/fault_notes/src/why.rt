// Why a call of the outside failed.
use std::io;
use std::io::ErrorKind;

/// Why a call of the outside failed, as far as people are told.
#[derive(Clone, Copy, Debug, PartialEq, Eq)]
pub enum Why {
    /// There is no such file or folder.
    Missing,
    NoRight,
    NoSpace,
    /// The system takes no write there.
    ReadOnly,
    TooLong,
    /// A folder, a device or a pipe stands where a file is due, or a file where a folder is.
    InTheWay,
    BadName,
    /// The system has no more open files to give.
    TooManyOpen,
    /// An earlier write to the disk failed, so that none is trusted any more.
    Untrusted,
    UnknownHost,
    Refused,
    TimedOut,
    Unreachable,
    /// The other side broke the connection off.
    Broken,
    /// The system's number of another error, and 0 of one without a number.
    Other(i32),
}

// Linux's numbers for want of descriptors: ENFILE and EMFILE.
const WANTS_DESCRIPTORS: [i32; 2] = [23, 24];

// .. of another kind than those of `Why::of`.
fn by_number(number: i32) -> Why {
    if WANTS_DESCRIPTORS.contains(&number) {
        Why::TooManyOpen
    } else {
        Why::Other(number)
    }
}

impl Why {
    /// Why the system failed, by its error.
    pub fn of(error: &io::Error) -> Why {
        match error.kind() {
            ErrorKind::NotFound => Why::Missing,
            ErrorKind::PermissionDenied => Why::NoRight,
            ErrorKind::StorageFull | ErrorKind::QuotaExceeded => Why::NoSpace,
            ErrorKind::FileTooLarge => Why::TooLong,
            ErrorKind::ReadOnlyFilesystem => Why::ReadOnly,
            ErrorKind::IsADirectory
            | ErrorKind::NotADirectory
            | ErrorKind::Unsupported
            | ErrorKind::AlreadyExists => Why::InTheWay,
            ErrorKind::InvalidFilename => Why::BadName,
            ErrorKind::ConnectionRefused => Why::Refused,
            ErrorKind::TimedOut | ErrorKind::WouldBlock => Why::TimedOut,
            ErrorKind::HostUnreachable | ErrorKind::NetworkUnreachable => Why::Unreachable,
            ErrorKind::ConnectionReset
            | ErrorKind::ConnectionAborted
            | ErrorKind::BrokenPipe
            | ErrorKind::UnexpectedEof => Why::Broken,
            _ => by_number(error.raw_os_error().unwrap_or(0)),
        }
    }

    /// Words for people.
    pub fn words(self) -> &'static str {
        match self {
            Why::Missing => "it isn't there",
            Why::NoRight => "there is no right to it",
            Why::NoSpace => "no space is left",
            Why::ReadOnly => "the file system takes no writes",
            Why::TooLong => "it grew longer than a file may be",
            Why::InTheWay => "something else is in its way, as a folder in that of a file",
            Why::BadName => "the system takes no such name",
            Why::TooManyOpen => "too many files are open",
            Why::Untrusted => "it could not be written out before",
            Why::UnknownHost => "its host isn't known",
            Why::Refused => "it refused the connection",
            Why::TimedOut => "it was silent for too long",
            Why::Unreachable => "there is no way to it",
            Why::Broken => "the connection broke off",
            Why::Other(_) => "the system failed",
        }
    }
}
