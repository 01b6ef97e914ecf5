// The table of the options.
ghost use Rattle.std.specs.Prelude.{◌≡◌, ◌≢◌, ◌↔◌, ◌<◌, ◌≤◌, ◌^◌, IsTrue, MatchOption};
ghost use Rattle.option_set.specs.Table.{row_of_number, row_of_text, table_row, all_options, is_changed_by_option, is_changed_globally};
ghost use Rattle.option_set.specs.Rows.{shown_number_row, shown_text_row, shown_row};

use crate::{Change, Num, Opt, Rule, Scope, Spelling, Word, WordUse};

const KIB: u64 = 1_024;

const MIB: u64 = 1_048_576;

/// The greatest speed limit in bytes a second.
const MAX_RATE: u64 = 4_294_967_295;

/// What each option has.
#[derive(Clone, Copy, Debug)]
pub struct Row {
    /// The long name, without the dashes.
    pub name: &'static str,
    /// The short letter.
    pub short: Option<char>,
    pub scope: Scope,
    pub change: Change,
    pub word_use: WordUse,
}

/// What an option of a number has.
#[derive(Clone, Copy, Debug)]
pub struct NumRow {
    pub option: Row,
    pub spelling: Spelling,
    pub default: u64,
    pub least: u64,
    pub most: u64,
}

/// What an option of a text has.
#[derive(Clone, Copy, Debug)]
pub struct WordRow {
    pub option: Row,
    pub rule: Rule,
    pub default: Option<&'static str>,
}

// A row of the table: the long name, the short letter, what the kind of option has, the scope, who changes it, and its use
// on the command line.
macro_rules! option_row {
    ($name:literal, $short:expr, $scope:ident, $change:ident, $word_use:ident) => {
        Row {
            name: $name,
            short: $short,
            scope: Scope::$scope,
            change: Change::$change,
            word_use: WordUse::$word_use,
        }
    };
}

macro_rules! number_row {
    ($name:literal, $short:expr, $spelling:ident, $default:expr, $least:expr, $most:expr, $($rest:ident),*) => {
        NumRow {
            option: option_row!($name, $short, $($rest),*),
            spelling: Spelling::$spelling,
            default: $default,
            least: $least,
            most: $most,
        }
    };
}

macro_rules! text_row {
    ($name:literal, $short:expr, $rule:ident, $default:expr, $($rest:ident),*) => {
        WordRow {
            option: option_row!($name, $short, $($rest),*),
            rule: Rule::$rule,
            default: $default,
        }
    };
}

impl Num {
    /// Its row of the table.
    pub fn row(self) -> NumRow
        ensures { shown_number_row result ≡ row_of_number self }
    {
        match self {
            Num::AutoSaveInterval =>
                number_row! { "auto-save-interval", None, Plain, 60, 0, 600, Download, Never, GlobalValue },
            Num::CheckIntegrity =>
                number_row! { "check-integrity", Some('V'), Truth, 0, 0, 1, Download, Globally, GlobalValue },
            Num::EnableRpc =>
                number_row! { "enable-rpc", None, Truth, 0, 0, 1, Global, Never, GlobalValue },
            Num::MaxConcurrentDownloads =>
                number_row! { "max-concurrent-downloads", Some('j'), Plain, 5, 1, 64, Global, Globally, GlobalValue },
            Num::MaxConnectionPerServer =>
                number_row! { "max-connection-per-server", Some('x'), Plain, 1, 1, 16, Download, Always, GlobalValue },
            Num::MaxDownloadLimit =>
                number_row! { "max-download-limit", None, Size, 0, 0, MAX_RATE, Download, Always, GlobalValue },
            Num::MaxOverallDownloadLimit =>
                number_row! { "max-overall-download-limit", None, Size, 0, 0, MAX_RATE, Global, Globally, GlobalValue },
            Num::MaxTries =>
                number_row! { "max-tries", Some('m'), Plain, 5, 1, 100, Download, Globally, GlobalValue },
            Num::MinSplitSize =>
                number_row! { "min-split-size", Some('k'), Size, 20 * MIB, MIB, 1024 * MIB, Download, Always, GlobalValue },
            Num::Pause => number_row! { "pause", None, Truth, 0, 0, 1, Download, Never, OwnCall },
            Num::PieceLength =>
                number_row! { "piece-length", None, Size, MIB, MIB, 64 * MIB, Download, Globally, GlobalValue },
            Num::RpcListenPort =>
                number_row! { "rpc-listen-port", None, Plain, 6800, 1024, 65_535, Global, Never, GlobalValue },
            Num::RpcMaxRequestSize =>
                number_row! { "rpc-max-request-size", None, Size, 2 * MIB, 16 * KIB, 64 * MIB, Global, Never, GlobalValue },
            Num::Split =>
                number_row! { "split", Some('s'), Plain, 5, 1, 64, Download, Always, GlobalValue },
        }
    }
}

impl Word {
    /// Its row of the table.
    pub fn row(self) -> WordRow
        ensures { shown_text_row result ≡ row_of_text self }
    {
        match self {
            Word::Checksum =>
                text_row! { "checksum", None, Checksum, None, Download, Never, OwnCall },
            Word::Dir =>
                text_row! { "dir", Some('d'), Folder, Some("."), Download, Globally, GlobalValue },
            Word::Gid => text_row! { "gid", None, Gid, None, Download, Never, Absent },
            Word::Out => text_row! { "out", Some('o'), FilePart, None, Download, Never, OwnCall },
            Word::RpcSecret =>
                text_row! { "rpc-secret", None, Filled, None, Global, Never, GlobalValue },
            Word::SelectFile =>
                text_row! { "select-file", None, FileList, None, Download, Never, OwnCall },
        }
    }
}

impl Opt {
    /// All options, in the ascending order of their names.
    pub const ALL: [Opt; 20] = [
        Opt::Num(Num::AutoSaveInterval),
        Opt::Num(Num::CheckIntegrity),
        Opt::Word(Word::Checksum),
        Opt::Word(Word::Dir),
        Opt::Num(Num::EnableRpc),
        Opt::Word(Word::Gid),
        Opt::Num(Num::MaxConcurrentDownloads),
        Opt::Num(Num::MaxConnectionPerServer),
        Opt::Num(Num::MaxDownloadLimit),
        Opt::Num(Num::MaxOverallDownloadLimit),
        Opt::Num(Num::MaxTries),
        Opt::Num(Num::MinSplitSize),
        Opt::Word(Word::Out),
        Opt::Num(Num::Pause),
        Opt::Num(Num::PieceLength),
        Opt::Num(Num::RpcListenPort),
        Opt::Num(Num::RpcMaxRequestSize),
        Opt::Word(Word::RpcSecret),
        Opt::Word(Word::SelectFile),
        Opt::Num(Num::Split),
    ];

    /// What it has as every option does.
    pub fn row(self) -> Row
        ensures { shown_row result ≡ table_row self }
    {
        match self {
            Opt::Num(num) => num.row().option,
            Opt::Word(word) => word.row().option,
        }
    }

    /// The option of this long name.
    pub fn named(name: &str) -> Option<Opt>
        ensures { MatchOption result
            ((option : Opt) → (table_row option).name ≢ name.now)
            (λ option. (table_row option).name ≡ name.now) }
    {
        for option in Opt::ALL {
            if option.row().name == name {
                return Some(option);
            }
        }
        None
    }

    /// Whether `aria2.changeOption` takes it.
    pub fn is_changed_by_option(self) -> bool
        ensures { result ≡ is_changed_by_option (table_row self).change }
    {
        matches!(self.row().change, Change::Always)
    }

    /// Whether `aria2.changeGlobalOption` takes it.
    pub fn is_changed_globally(self) -> bool
        ensures { result ≡ is_changed_globally (table_row self).change }
    {
        !matches!(self.row().change, Change::Never)
    }
}
