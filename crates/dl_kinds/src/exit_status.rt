// The exit statuses.
ghost use Rattle.std.specs.Prelude.{◌≡◌};
ghost use Rattle.dl_kinds.specs.ExitStatuses as spec;
ghost use Rattle.dl_kinds.specs.ExitStatuses.{StatusesHaveCodes, code_of_status, words_of_status};

/// The exit statuses of the aria2 manual, section EXIT STATUS, that a run may have, and two of this program's own: want of
/// memory, and a sink that failed.
#[derive(Clone, Copy, Debug, PartialEq, Eq)]
pub enum ExitStatus {
    Done,
    Unusable,
    NotFound,
    Network,
    Unfinished,
    PieceLength,
    SameFile,
    SameHash,
    Exists,
    FileIo,
    FtpCommand,
    HttpReply,
    Redirects,
    Authorization,
    BadBencode,
    BadMetainfo,
    BadWords,
    Unavailable,
    Checksum,
    NoMemory,
    SinkFault,
}

/// All of them, by their numbers.
pub const EXIT_STATUSES: [ExitStatus; 21] = [
    ExitStatus::Done,
    ExitStatus::Unusable,
    ExitStatus::NotFound,
    ExitStatus::Network,
    ExitStatus::Unfinished,
    ExitStatus::PieceLength,
    ExitStatus::SameFile,
    ExitStatus::SameHash,
    ExitStatus::Exists,
    ExitStatus::FileIo,
    ExitStatus::FtpCommand,
    ExitStatus::HttpReply,
    ExitStatus::Redirects,
    ExitStatus::Authorization,
    ExitStatus::BadBencode,
    ExitStatus::BadMetainfo,
    ExitStatus::BadWords,
    ExitStatus::Unavailable,
    ExitStatus::Checksum,
    ExitStatus::NoMemory,
    ExitStatus::SinkFault,
];

impl ExitStatus {
    /// The number with which the program exits, and short words for people.
    const fn row(self) -> (u8, &'static str)
        ensures code { result.0 ≡ code_of_status self }
        ensures words { result.1.now ≡ words_of_status self }
    {
        match self {
            ExitStatus::Done => (0, ""),
            ExitStatus::Unusable => (1, "control file or length is not usable"),
            ExitStatus::NotFound => (3, "resource not found"),
            ExitStatus::Network => (6, "network problem"),
            ExitStatus::Unfinished => (7, "downloads are not finished"),
            ExitStatus::PieceLength => (10, "piece length differs from the control file"),
            ExitStatus::SameFile => (11, "file is already being downloaded"),
            ExitStatus::SameHash => (12, "info hash is already being downloaded"),
            ExitStatus::Exists => (13, "file already exists"),
            ExitStatus::FileIo => (17, "file I/O error"),
            ExitStatus::FtpCommand => (21, "FTP command failed"),
            ExitStatus::HttpReply => (22, "unexpected HTTP reply"),
            ExitStatus::Redirects => (23, "too many redirects"),
            ExitStatus::Authorization => (24, "HTTP authorization failed"),
            ExitStatus::BadBencode => (25, "bencoded bytes are wrong"),
            ExitStatus::BadMetainfo => (26, "torrent is not usable"),
            ExitStatus::BadWords => (28, "command line is wrong"),
            ExitStatus::Unavailable => (29, "server temporarily unable"),
            ExitStatus::Checksum => (32, "checksum failed"),
            ExitStatus::NoMemory => (40, "out of memory"),
            ExitStatus::SinkFault => (41, "output failed"),
        }
    }

    /// The number with which the program exits.
    pub const fn code(self) -> u8
        ensures { result ≡ code_of_status self }
    {
        self.row().0
    }

    /// Short words for people, and none where all is done.
    pub const fn words(self) -> &'static str
        ensures { result.now ≡ words_of_status self }
    {
        self.row().1
    }

    /// The status with this number.
    pub fn with_code(code: u8) -> Option<ExitStatus>
        ensures { result ≡ spec.status_with code }
    {
        EXIT_STATUSES
            .iter()
            .copied()
            .find(|status| status.code() == code)
    }
}

/// Short words for people on a number with which the program exits; none of 0, and of one that no status has.
pub fn words_of_code(code: u8) -> &'static str
    ensures { result.now ≡ spec.words_of_code code }
{
    match ExitStatus::with_code(code) {
        Some(status) => status.words(),
        None => "",
    }
}

/// No two exit statuses have one number. It does nothing when it runs.
pub fn statuses_have_codes()
    ensures { StatusesHaveCodes }
{}
