// Lines on command lines and metainfo files that are refused.
use crate::faults::{WordFault, first_other};
use crate::lines::shown;
use crate::values::add_wanted;
use dl_kinds::NoMemory;
use fault_notes::Notes;
use run_report::MetainfoFault;
use std::alloc::{AllocError, Global};
use std::fmt::Write;

// What is said of URIs of a scheme.
const SCHEMES: [(&str, &str); 5] = [
    ("https:", "https isn't spoken, only http and ftp"),
    ("ftp:", "an ftp URL needs the name of a file, and no user"),
    ("sftp:", "SFTP isn't spoken, only http and ftp"),
    (
        "magnet:",
        "magnet links aren't followed: name the metainfo file, FILE.torrent",
    ),
    ("file:", "a file of this machine needs no download"),
];

fn scheme_words(word: &str) -> &'static str {
    for (scheme, words) in SCHEMES {
        let front = word.as_bytes().get(..scheme.len());
        if front.is_some_and(|it| it.eq_ignore_ascii_case(scheme.as_bytes())) {
            return words;
        }
    }
    "its scheme isn't spoken, only http and ftp"
}

// What is wrong with a word.
fn word_words(fault: WordFault<'_>) -> &'static str {
    match fault {
        WordFault::Unknown(_) => "there is no such option here",
        WordFault::Scheme(word) => scheme_words(word),
        WordFault::NotUrl(_) =>
            "it is no http or ftp URL, and no name of a metainfo file, FILE.torrent",
        WordFault::SecondMetainfo(_) => "only the first word may name a metainfo file",
        WordFault::Unexpected(_) => "this command takes no such word",
        WordFault::TooManyUris => "there are more than 256 URIs",
        WordFault::Load =>
            "--self-load=N stands alone, with a number below 2^64 that has no zero in front",
        _ => "it names neither a metainfo file nor a URI, or it isn't UTF-8",
    }
}

fn add_word(text: &mut String, alloc: Global, word: &str, words: &str) -> Result<(), AllocError> {
    let word = if word.is_empty() { "''" } else { word };
    write!(text, "{}: {words}", shown(alloc, word)?)
}

/// Adds what is wrong with a command line.
pub fn add_word_fault(
    text: &mut String,
    alloc: Global,
    fault: WordFault<'_>,
) -> Result<(), AllocError> {
    match fault {
        WordFault::Twice(name) => write!(text, "--{name} stands twice"),
        WordFault::TakesNoValue(name) => write!(text, "--{name} takes no value"),
        WordFault::LacksValue { name, option } => {
            write!(text, "--{name} lacks its value: ")?;
            add_wanted(text, name, option)
        }
        WordFault::Value {
            name,
            value,
            option,
        } => {
            write!(text, "--{name}={}: wanted: ", shown(alloc, value)?)?;
            add_wanted(text, name, option)
        }
        WordFault::Unknown(word)
        | WordFault::Scheme(word)
        | WordFault::NotUrl(word)
        | WordFault::SecondMetainfo(word)
        | WordFault::Unexpected(word) => add_word(text, alloc, word, word_words(fault)),
        WordFault::NoWords | WordFault::TooManyUris | WordFault::Load => {
            add_word(text, alloc, "the command line", word_words(fault))
        }
    }
}

fn metainfo_words(fault: MetainfoFault) -> &'static str {
    match fault {
        MetainfoFault::Missing => "there is no such file",
        MetainfoFault::Unread => "it can't be read",
        MetainfoFault::TooLong => "it is longer than 32 MiB",
        MetainfoFault::NotBencode => "it is no metainfo file, since it isn't bencoded",
        MetainfoFault::Unusable => "it breaks a rule of metainfo files",
        MetainfoFault::NoMirror => "neither it nor the command line names an http URL of a mirror",
        MetainfoFault::TooManyMirrors => "it and the command line name more than 256 mirrors",
    }
}

/// Adds why the metainfo file that the words name gives no download.
pub fn add_metainfo_fault(
    text: &mut String,
    alloc: Global,
    words: &[String],
    fault: MetainfoFault,
    disk: &Notes,
) -> Result<(), NoMemory> {
    let name = first_other(alloc, words)?.unwrap_or("the metainfo file");
    add_word(text, alloc, name, metainfo_words(fault))?;
    match disk.last() {
        Some(note) if fault == MetainfoFault::Unread => write!(text, ": {}", note.why.words()),
        _ => Ok(()),
    }
}
