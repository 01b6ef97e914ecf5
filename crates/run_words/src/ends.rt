// Words on how downloads ended and why mirrors were lost.
use crate::lines::shown;
use dl_kinds::{Code, ExitStatus, Gid, Mark};
use fault_notes::Notes;
use machine_core::End;
use std::alloc::{AllocError, Global};
use std::fmt::Write;

// What is said of the codes of marks.
const CODES: [(ExitStatus, &str); 7] = [
    (ExitStatus::NotFound, "it has no such file (404)"),
    (ExitStatus::Network, "its reply ended early"),
    (
        ExitStatus::HttpReply,
        "its reply isn't what was asked for, or leads to a URL that isn't http, as https",
    ),
    (
        ExitStatus::Redirects,
        "the file was moved more than 20 times",
    ),
    (ExitStatus::Authorization, "it wants to know who asks (401)"),
    (ExitStatus::Unavailable, "it is overloaded (503)"),
    (
        ExitStatus::Checksum,
        "its bytes don't have the piece's digest",
    ),
];

// What is said of the code of a mark.
fn code_words(code: Code) -> &'static str {
    for (status, words) in CODES {
        if status.code() == code.0 {
            return words;
        }
    }
    "it failed"
}

/// Why a mirror was lost: where its link failed, by what the link noted.
pub fn mark_words(mark: Mark, link: Option<&Notes>) -> &'static str {
    if mark.count == 0 {
        return code_words(mark.code);
    }
    match link.and_then(|notes| notes.find(mark.count)) {
        Some(note) => note.why.words(),
        None => "the connection failed",
    }
}

/// Adds the 16 digits of a download's id.
pub fn add_gid(text: &mut String, gid: Gid) -> Result<(), AllocError> {
    for digit in gid.text() {
        text.push(digit as char)?;
    }
    Ok(())
}

fn add_other(text: &mut String, words: &str, gid: Gid) -> Result<(), AllocError> {
    text.push_str(words)?;
    add_gid(text, gid)
}

fn add_disk_fault(
    text: &mut String,
    alloc: Global,
    count: u64,
    disk: &Notes,
) -> Result<(), AllocError> {
    match disk.find(count) {
        Some(note) => write!(text, "{}: {}", shown(alloc, &note.name)?, note.why.words()),
        None => text.push_str("the disk failed"),
    }
}

// The mirrors' own lines tell the rest.
fn add_dead(text: &mut String, piece: u32, mark: Mark) -> Result<(), AllocError> {
    write!(text, "no mirror has a try left for piece {piece}")?;
    if mark.code == Code::of(ExitStatus::Checksum) {
        text.push_str(", whose bytes didn't have its digest")?;
    }
    Ok(())
}

/// Adds why a download failed.
pub fn add_end(text: &mut String, alloc: Global, end: End, disk: &Notes) -> Result<(), AllocError> {
    match end {
        End::Complete => text.push_str("it is complete"),
        End::Dead { piece, mark } => add_dead(text, piece, mark),
        End::Disk { count } => add_disk_fault(text, alloc, count, disk),
        End::Exists { length } => write!(
            text,
            "a file of {length} bytes stands there without a control file: move it away, or give another --out"
        ),
        End::PieceLength { have, want } => write!(
            text,
            "the control file has pieces of {have} bytes, not {want}: give --piece-length={have}, or remove it to start anew"
        ),
        End::Length { have, want } => write!(
            text,
            "the control file is of {have} bytes, not {want}: remove it to start anew"
        ),
        End::InfoHash => text.push_str(
            "the control file is another payload's: remove it to start anew",
        ),
        End::Unreadable { at } => write!(
            text,
            "the control file breaks its format at byte {at}: remove it, and with -V what stands is compared"
        ),
        End::TooLarge { total } => write!(
            text,
            "{total} bytes need too many pieces: give a larger --piece-length"
        ),
        End::SameFile { gid } => add_other(text, "its file is written by download ", gid),
        End::SameHash { gid } => add_other(text, "its info hash is that of download ", gid),
        End::Checksum => text.push_str(
            "the file doesn't have its checksum: remove it and its control file to start anew",
        ),
    }
}
