// How a run ends.
ghost use Rattle.std.specs.Prelude.{◌≡◌};
ghost use Rattle.run_report.specs.Endings.{code_of_ending, status_of_fault};

use crate::code_of_end;
use dl_kinds::ExitStatus;
use machine_core::End;

/// Why the metainfo file that the words name gives no download.
#[derive(Clone, Copy, Debug, PartialEq, Eq)]
pub enum MetainfoFault {
    /// There is no such file.
    Missing,
    /// The disk failed while it was read.
    Unread,
    /// It has more bytes than are read.
    TooLong,
    /// Its bytes are no bencoded value.
    NotBencode,
    /// It breaks another rule of metainfo files.
    Unusable,
    /// Neither it nor the words name a mirror.
    NoMirror,
    TooManyMirrors,
}

impl MetainfoFault {
    fn status(self) -> ExitStatus
        ensures { result ≡ status_of_fault self }
    {
        match self {
            MetainfoFault::Missing => ExitStatus::NotFound,
            MetainfoFault::Unread => ExitStatus::FileIo,
            MetainfoFault::NotBencode => ExitStatus::BadBencode,
            MetainfoFault::TooLong
            | MetainfoFault::Unusable
            | MetainfoFault::NoMirror
            | MetainfoFault::TooManyMirrors => ExitStatus::BadMetainfo,
        }
    }
}

/// How a run ends.
#[derive(Clone, Copy, Debug, PartialEq, Eq)]
pub enum RunEnding {
    /// The words have no meaning, and nothing was done.
    NoMeaning,
    /// The metainfo file gives no download, and nothing but its reading was done.
    NoMetainfo(MetainfoFault),
    NoMemory,
    /// The output failed.
    SinkFault,
    /// The last download that an error ended, ended so.
    Failed(End),
    /// A download is active, waits or is paused.
    Unfinished,
    Done,
}

impl RunEnding {
    /// The number with which the program exits.
    pub fn code(&self) -> u8
        ensures { result ≡ code_of_ending self.now }
    {
        match self {
            RunEnding::NoMeaning => ExitStatus::BadWords.code(),
            RunEnding::NoMetainfo(fault) => fault.status().code(),
            RunEnding::NoMemory => ExitStatus::NoMemory.code(),
            RunEnding::SinkFault => ExitStatus::SinkFault.code(),
            RunEnding::Failed(end) => code_of_end(end),
            RunEnding::Unfinished => ExitStatus::Unfinished.code(),
            RunEnding::Done => ExitStatus::Done.code(),
        }
    }
}
