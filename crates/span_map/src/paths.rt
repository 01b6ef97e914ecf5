// Which paths files may have, and which files may stand beside each other.
ghost use Rattle.std.specs.Prelude.{◌≡◌, ◌↔◌, ◌≤◌, ◌<◌, ◌+◌, ◌^◌, ◌≢◌, ℕ, List, IsTrue, IsSomeAnd, IfOk, OnOk, IfErr, MatchOption, MatchBool, All, AllPairs, map, length, take, slice_get};
ghost use Rattle.std.specs.List.{AllAdjacentBelow};
ghost use Rattle.span_map.specs.Paths.{IsValidPart, IsPath, Begins, Clash};
ghost use Rattle.span_map.specs.Order.{paths_cmp, SomeNext};
ghost use Rattle.span_map.specs.Layout.{HavePaths, IsRefused, AreApart, IsFirstClash};

use crate::{FileLen, LayoutErr};
use dl_kinds::Texts;
use std::alloc::{AllocError, Global};
use std::cmp::Ordering;

/// The most bytes of a part of a path.
pub const MAX_PART_LEN: usize = 255;

/// The most parts of a path.
pub const MAX_PARTS: usize = 64;

/// What stands between the parts of a path, and can't stand within one.
pub const SLASH: u8 = b'/';

/// What ends a name in the calls of a system, and can't stand within one.
pub const NUL: u8 = 0;

/// Whether these bytes may be the name of a folder or a file in a path: UTF-8, 1 to 255 bytes, not `.` or `..`, and
/// without `/` and NUL.
pub fn is_valid_part(bytes: &[u8]) -> bool
    ensures { IsTrue result ↔ IsValidPart bytes.now }
{
    std::str::from_utf8(bytes).is_ok()
        && !bytes.is_empty()
        && bytes.len() <= MAX_PART_LEN
        && bytes != b".".as_slice()
        && bytes != b"..".as_slice()
        && !bytes.contains(&SLASH)
        && !bytes.contains(&NUL)
}

fn is_path(path: &Texts) -> bool
    ensures { IsTrue result ↔ IsPath path.now }
{
    if path.is_empty() || path.len() > MAX_PARTS {
        return false;
    }
    for place in 0..path.len() {
        if !is_valid_part(path.at(place).bytes()) {
            return false;
        }
    }
    true
}

// How two paths stand in the order of their parts, each as bytes.
fn compare(a: &Texts, b: &Texts) -> Ordering
    ensures { result ≡ paths_cmp a.now b.now }
{
    for place in 0..a.len().min(b.len()) {
        let order = a.at(place).bytes().cmp(b.at(place).bytes());
        if order != Ordering::Equal {
            return order;
        }
    }
    a.len().cmp(&b.len())
}

// Whether a path begins with all the parts of another.
fn begins(front: &Texts, path: &Texts) -> bool
    ensures { IsTrue result ↔ Begins front.now path.now }
{
    if path.len() < front.len() {
        return false;
    }
    for place in 0..front.len() {
        if front.at(place).bytes() != path.at(place).bytes() {
            return false;
        }
    }
    true
}

fn paths_of(alloc: Global, files: &[FileLen]) -> Result<Vec<&Texts>, AllocError>
    ensures { IfOk result (λ paths. map (λ path. path.now) paths.items
        ≡ map (λ file. file.path) files.now) }
{
    let mut paths = Vec::with_capacity(alloc, files.len())?;
    for file in files {
        paths.push(&file.path)?;
    }
    Ok(paths)
}

// Whether a path begins the one that follows it.
fn some_begins_next(paths: &[&Texts]) -> bool
    ensures { MatchBool result
        (SomeNext (λ a b. Begins a.now b.now) paths.now)
        (AllAdjacentBelow (λ a b. Begins a.now b.now → ⊥) paths.now (length paths.now)) }
{
    for place in 1..paths.len() {
        if begins(paths[place - 1], paths[place]) {
            return true;
        }
    }
    false
}

// In sorted paths whatever begins a later path begins the next one too, so neighbours tell.
fn are_apart(alloc: Global, files: &[FileLen]) -> Result<bool, AllocError>
    ensures { IfOk result (λ apart. IsTrue apart ↔ AreApart files.now) }
{
    let mut paths = paths_of(alloc, files)?;
    paths.sort_unstable_by(|a, b| compare(a, b));
    Ok(!some_begins_next(&paths))
}

// The first file whose path clashes with an earlier one.
fn first_clash(alloc: Global, files: &[FileLen]) -> Result<Option<usize>, AllocError>
    requires { All (λ file. IsPath file.path) files.now }
    ensures { IfOk result (λ found. MatchOption found (AreApart files.now)
        (IsFirstClash files.now)) }
{
    if are_apart(alloc, files)? {
        return Ok(None);
    }
    let mut apart = 0;
    let mut clashing = files.len();
    while apart + 1 < clashing {
        let middle = apart + (clashing - apart) / 2;
        if are_apart(alloc, &files[..middle])? {
            apart = middle;
        } else {
            clashing = middle;
        }
    }
    Ok(Some(apart))
}

// How many files at the front have valid paths.
fn valid_len(files: &[FileLen]) -> usize
    ensures within { result ≤ length files.now }
    ensures valid { All (λ file. IsPath file.path) (take result files.now) }
    ensures stops { result < length files.now
        → IsSomeAnd (slice_get files.now result) (λ file. ¬ IsPath file.path) }
{
    for (count, file) in files.iter().enumerate() {
        if !is_path(&file.path) {
            return count;
        }
    }
    files.len()
}

/// Whether files may stand beside each other with these paths.
pub(crate) fn check_paths(alloc: Global, files: &[FileLen]) -> Result<(), LayoutErr>
    requires { length files.now < 2 ^ 32 }
    ensures ok { OnOk result (HavePaths files.now) }
    ensures refused { IfErr result (λ fault. fault ≢ LayoutErr.NoMemory
        → IsRefused files.now fault) }
{
    let valid = valid_len(files);
    if let Some(place) = first_clash(alloc, &files[..valid])? {
        return Err(LayoutErr::Repeated(place as u32));
    }
    if valid < files.len() {
        return Err(LayoutErr::BadPath(valid as u32));
    }
    Ok(())
}
