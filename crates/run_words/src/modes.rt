// What a command line asks for, by the first of its words that tells, and the options that it may have then.
use option_set::{Opt, Word, WordUse};

/// What a command line asks for.
#[derive(Clone, Copy, Debug, PartialEq, Eq)]
pub enum Mode {
    Downloads,
    Load,
    Serve,
    Check,
}

// By each of these options a line asks for something else than downloads.
const MODES: [(&str, Mode); 3] = [
    ("--self-load", Mode::Load),
    ("--serve-dir", Mode::Serve),
    ("--verify-v2", Mode::Check),
];

// Options of other lines have a folder's or a file's name as their value, which is spelled as this option's.
const FOLDER: Opt = Opt::Word(Word::Dir);

fn mode_by(word: &str) -> Option<Mode> {
    for (name, mode) in MODES {
        if let Some(rest) = word.strip_prefix(name) {
            if rest.is_empty() || rest.starts_with('=') {
                return Some(mode);
            }
        }
    }
    None
}

/// What the words ask for.
pub fn mode_of(words: &[String]) -> Mode {
    for word in words {
        if let Some(mode) = mode_by(word) {
            return mode;
        }
    }
    Mode::Downloads
}

// The option of a line of downloads.
fn named(name: &str) -> Option<Opt> {
    match Opt::named(name) {
        Some(option) if option.row().word_use != WordUse::Absent => Some(option),
        _ => None,
    }
}

impl Mode {
    /// The option whose values an option of this long name has, if there is such an option in lines of this kind.
    pub fn option(self, name: &str) -> Option<Opt> {
        match (self, name) {
            (Mode::Downloads, _) => named(name),
            (Mode::Serve, "serve-dir") => Some(FOLDER),
            (Mode::Serve, "rpc-listen-port") => named(name),
            (Mode::Check, "verify-v2" | "dir" | "copy-dir") => Some(FOLDER),
            _ => None,
        }
    }

    /// How lines of this kind are written.
    pub fn usage(self) -> &'static str {
        match self {
            Mode::Downloads => {
                "aria_cli [OPTIONS] FILE.torrent [URI..], or [OPTIONS] URI.., or --enable-rpc [OPTIONS] [FILE.torrent] [URI..]"
            }
            Mode::Load => "aria_cli --self-load=N",
            Mode::Serve => "aria_cli --serve-dir=DIR [--rpc-listen-port=PORT]",
            Mode::Check => "aria_cli --verify-v2=FILE [--dir=DIR] [--copy-dir=DIR]",
        }
    }
}
