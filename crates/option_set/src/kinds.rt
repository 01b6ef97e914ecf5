// The options by name, and what the columns of their table hold.

/// The options whose value is a number. A truth value is the number 0 or 1.
#[derive(Clone, Copy, Debug, PartialEq, Eq)]
pub enum Num {
    AutoSaveInterval,
    CheckIntegrity,
    EnableRpc,
    MaxConcurrentDownloads,
    MaxConnectionPerServer,
    MaxDownloadLimit,
    MaxOverallDownloadLimit,
    MaxTries,
    MinSplitSize,
    Pause,
    PieceLength,
    RpcListenPort,
    RpcMaxRequestSize,
    Split,
}

/// The options whose value is a text.
#[derive(Clone, Copy, Debug, PartialEq, Eq)]
pub enum Word {
    Checksum,
    Dir,
    Gid,
    Out,
    RpcSecret,
    SelectFile,
}

/// An option.
#[derive(Clone, Copy, Debug, PartialEq, Eq)]
pub enum Opt {
    Num(Num),
    Word(Word),
}

/// How the value of an option of a number is spelled.
#[derive(Clone, Copy, Debug, PartialEq, Eq)]
pub enum Spelling {
    /// Decimal digits.
    Plain,
    /// Decimal digits, and `K` or `k` for 1,024 or `M` or `m` for 1,048,576 of them.
    Size,
    /// `true` or `false`.
    Truth,
}

/// Which values an option of a text takes.
#[derive(Clone, Copy, Debug, PartialEq, Eq)]
pub enum Rule {
    /// A text that isn't empty.
    Filled,
    /// A folder's name: not empty, without NUL.
    Folder,
    /// A part of a path.
    FilePart,
    /// The name of a hash function and a digest.
    Checksum,
    /// The id of a download.
    Gid,
    /// Numbers of files.
    FileList,
}

/// Whom an option is for.
#[derive(Clone, Copy, Debug, PartialEq, Eq)]
pub enum Scope {
    /// Each download has a value of its own.
    Download,
    /// The program has one value.
    Global,
}

/// Which calls change an option while the program runs.
#[derive(Clone, Copy, Debug, PartialEq, Eq)]
pub enum Change {
    Never,
    /// `aria2.changeGlobalOption` alone.
    Globally,
    /// `aria2.changeOption` too.
    Always,
}

/// What an option is for on the command line.
#[derive(Clone, Copy, Debug, PartialEq, Eq)]
pub enum WordUse {
    /// It stands there not.
    Absent,
    /// It is a setting of the download that the command line names.
    OwnCall,
    /// It is a global value.
    GlobalValue,
}
