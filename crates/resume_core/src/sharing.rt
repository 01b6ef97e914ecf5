// Names that wants share on a disk.
ghost use Rattle.std.specs.Prelude.{◌≡◌, IfOk};
ghost use Rattle.std.specs.List.{list_any};
ghost use Rattle.std.specs.Str.{bytes_eq};
ghost use Rattle.resume_core.specs.Sharing.{names_of_want, share_names};

use crate::names::{control_text, temporary_text};
use control_file::Want;
use dl_kinds::{Text, Texts};
use payload_files::file_name;
use std::alloc::{AllocError, Global};

fn names_of(alloc: Global, want: &Want) -> Result<Texts, AllocError>
    ensures { IfOk result (λ names. names ≡ names_of_want want.now) }
{
    let control = control_text(alloc, want)?;
    let temporary = temporary_text(alloc, want)?;
    let mut names = Texts::new(alloc);
    names.push(Text::of(alloc, control.as_str())?)?;
    names.push(Text::of(alloc, temporary.as_str())?)?;
    let files = want.layout.files();
    for file in files {
        let name = file_name(alloc, want.dir.as_str(), &file.path)?;
        names.push(Text::of(alloc, name.as_str())?)?;
    }
    Ok(names)
}

fn has_name(names: &Texts, name: &Text) -> bool
    ensures { result ≡ list_any (bytes_eq name.now) names.now }
{
    for place in 0..names.len() {
        if name.bytes() == names.at(place).bytes() {
            return true;
        }
    }
    false
}

fn has_one_of(one: &Texts, other: &Texts) -> bool
    ensures { result ≡ list_any (λ name. list_any (bytes_eq name) other.now) one.now }
{
    for place in 0..one.len() {
        if has_name(other, one.at(place)) {
            return true;
        }
    }
    false
}

/// Whether a file that one want's store writes has the name of one that the other's writes. It makes each name once, and
/// compares each of one with each of the other.
pub fn shares_name(alloc: Global, one: &Want, other: &Want) -> Result<bool, AllocError>
    ensures { IfOk result (λ shares. shares ≡ share_names one.now other.now) }
{
    let one = names_of(alloc, one)?;
    let other = names_of(alloc, other)?;
    Ok(has_one_of(&one, &other))
}
