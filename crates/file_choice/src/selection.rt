// The files that the text of `select-file` selects.
ghost use Rattle.std.specs.Prelude.{◌≡◌, ◌+◌, ◌<◌, ◌≤◌, ◌^◌, Some, IfOk, IfSome, map, option_copied, length, replicate, true};
ghost use Rattle.std.specs.List.{list_any, range_with_len};
ghost use Rattle.option_set.specs.Files.{IsFileList, file_members};
ghost use Rattle.file_choice.specs.Selected.{is_named_file, is_selected};
ghost use Rattle.file_choice.specs.Sweeps.{AreReaches};

use option_set::file_range;
use std::alloc::{AllocError, Global};

fn members<'a>(alloc: Global, text: &'a str) -> Result<Vec<&'a str>, AllocError>
    ensures { IfOk result (λ members. map (λ member. member.now) members.items ≡ file_members text.now) }
{
    text.split(',').collect(alloc)
}

// A member reaches the last of its files from its first one; of several that begin there, the longest counts.
fn reaches(alloc: Global, text: &str, files: usize) -> Result<Vec<u32>, AllocError>
    requires text { IsFileList text.now }
    requires few { files < 2 ^ 32 }
    ensures { IfOk result (λ reach. AreReaches (file_members text.now) files reach.items) }
{
    let mut reach = vec![in alloc; 0; files + 1]?;
    let members = members(alloc, text)?;
    for member in members.iter() {
        let Some(range) = file_range(member) else {
            continue;
        };
        let first = range.first as usize;
        if first <= files {
            reach[first] = reach[first].max(range.last);
        }
    }
    Ok(reach)
}

// For each file whether it is named.
fn named(alloc: Global, text: &str, files: usize) -> Result<Vec<bool>, AllocError>
    requires text { IsFileList text.now }
    requires few { files < 2 ^ 32 }
    ensures { IfOk result (λ named. named.items
        ≡ map (is_named_file (Some text.now)) (range_with_len 1 files)) }
{
    let reach = reaches(alloc, text, files)?;
    let mut named = Vec::with_capacity(alloc, files)?;
    let mut far = 0;
    for number in 1..files + 1 {
        far = far.max(reach[number]);
        named.push(number <= far as usize)?;
    }
    Ok(named)
}

fn is_any(flags: &[bool]) -> bool
    ensures { result ≡ list_any (λ flag. flag) flags.now }
{
    flags.iter().any(|flag| *flag)
}

fn all_files(alloc: Global, files: usize) -> Result<Vec<bool>, AllocError>
    ensures { IfOk result (λ flags. flags.items ≡ replicate files true) }
{
    Ok(vec![in alloc; true; files]?)
}

// The files that the text names, and all where it names none.
fn selected_by(alloc: Global, text: &str, files: usize) -> Result<Vec<bool>, AllocError>
    requires text { IsFileList text.now }
    requires few { files < 2 ^ 32 }
    ensures { IfOk result (λ selected. selected.items
        ≡ map (is_selected (Some text.now) files) (range_with_len 1 files)) }
{
    let named = named(alloc, text, files)?;
    if is_any(&named) {
        Ok(named)
    } else {
        all_files(alloc, files)
    }
}

/// For each file of a payload whether the text of `select-file` selects it: all of them, where it names none.
pub fn selected(alloc: Global, text: Option<&str>, files: usize) -> Result<Vec<bool>, AllocError>
    requires text { IfSome text (λ text. IsFileList text.now) }
    requires few { files < 2 ^ 32 }
    ensures { IfOk result (λ selected. selected.items
        ≡ map (is_selected (option_copied text.entry) files) (range_with_len 1 files)) }
{
    match text {
        Some(text) => selected_by(alloc, text, files),
        None => all_files(alloc, files),
    }
}
