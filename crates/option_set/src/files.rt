// Numbers of files in the value of `select-file`.
ghost use Rattle.std.specs.Prelude.{◌≡◌, ◌↔◌, ℕ, IsTrue, IfOk, MatchOption};
ghost use Rattle.option_set.specs.Files.{first_text, last_text, NamesFiles, IsMember, IsFileList, AreRanges, file_members};

use crate::numbers::decimal;
use std::alloc::{AllocError, Global};

/// The most files of a payload that an option may number.
pub const MAX_FILES: u64 = 1_048_576;

/// Consecutive files, which are numbered from 1.
#[derive(Clone, Copy, Debug, PartialEq, Eq)]
pub struct FileRange {
    pub first: u32,
    pub last: u32,
}

// What stands at both ends of a member.
fn halves(member: &str) -> (&str, &str)
    ensures first { result.0.now ≡ first_text member.now }
    ensures last { result.1.now ≡ last_text member.now }
{
    match member.split_once('-') {
        Some(both) => both,
        None => (member, member),
    }
}

/// The files that a member of a list names, if it names some.
pub fn file_range(member: &str) -> Option<FileRange>
    ensures { MatchOption result
        ((first : ℕ) → (last : ℕ) → NamesFiles member.now first last → ⊥)
        (λ range. NamesFiles member.now range.first range.last) }
{
    let (first, last) = halves(member);
    let first = decimal(first.as_bytes())?;
    let last = decimal(last.as_bytes())?;
    if first < 1 || last < first || last > MAX_FILES {
        return None;
    }
    Some(FileRange {
        first: first as u32,
        last: last as u32,
    })
}

fn is_member(member: &str) -> bool
    ensures { IsTrue result ↔ IsMember member.now }
{
    file_range(member).is_some()
}

/// Whether the text names files as `select-file` does.
pub(crate) fn is_file_list(text: &str) -> bool
    ensures { IsTrue result ↔ IsFileList text.now }
{
    text.split(',').all(is_member)
}
