// What a crash leaves of a disk in memory.
ghost use Rattle.std.specs.Prelude.{◌≡◌, ◌+◌, ◌<◌, length, drop, IfOk, OnOk, IsTrue};
ghost use Rattle.dl_disk.specs.Contents.{files_of};
ghost use Rattle.dl_disk.specs.Crash.{lasts_by, is_pending, chosen, flooded, remains_by, as_it_was, choice_of, choices_after, crashed};
ghost use Rattle.dl_disk.specs.Edit.{fits};
ghost use Rattle.dl_disk.specs.Files.{IsSame, Puts};

use crate::contents::Contents;
use crate::edits::Edit;
use crate::record::{Action, Call};
use std::alloc::{AllocError, Global};

// Whether what stands under this name is made to last by one of these calls.
fn lasts_by(name: &str, later: &[Call]) -> bool
    ensures { result ≡ lasts_by name.now later.now }
{
    let mut name = name;
    for call in later {
        if !call.done {
            continue;
        }
        match &call.action {
            Action::Sync if call.name.as_str() == name => return true,
            Action::Replace { to } if call.name.as_str() == name => name = to.as_str(),
            Action::Replace { to } if to.as_str() == name => return false,
            Action::Remove if call.name.as_str() == name => return false,
            _ => {}
        }
    }
    false
}

impl Call {
    // Whether a crash may lose what the call changed of these files, where these calls came after it.
    fn is_pending(&self, files: &Contents, later: &[Call]) -> bool
        ensures { result ≡ is_pending (files_of files.now) self.now later.now }
    {
        let name = self.name.as_str();
        match &self.action {
            Action::Change(_) => !lasts_by(name, later),
            Action::Replace { to } => {
                !self.done
                    && files.get(name).is_some()
                    && !(lasts_by(name, later) || lasts_by(to.as_str(), later))
            }
            Action::Remove => { !self.done && files.get(name).is_some() && !lasts_by(name, later) }
            Action::Look | Action::Read { .. } | Action::Sync | Action::MakeDir => false,
        }
    }

    // The choice of the call as it was.
    fn as_it_was(&self) -> u8
        ensures { result ≡ as_it_was self.now }
    {
        if self.done { 1 } else { 0 }
    }

    // Makes of the files what a crash leaves of the call by this choice.
    fn leave(&self, alloc: Global, choice: u8, left: &mut Contents) -> Result<(), AllocError>
        ensures { OnOk result
            (IsSame (remains_by choice self.now.name self.now.action (files_of left.old))
            (files_of left.new)) }
    {
        let name = self.name.as_str();
        match &self.action {
            Action::Change(edit) => leave_edit(alloc, choice, edit, name, left),
            Action::Replace { to } if choice != 0 => left.move_over(alloc, name, to.as_str()),
            Action::Remove if choice != 0 => {
                left.remove(name);
                Ok(())
            }
            _ => Ok(()),
        }
    }
}

fn leave_edit(
    alloc: Global,
    choice: u8,
    edit: &Edit,
    name: &str,
    left: &mut Contents,
) -> Result<(), AllocError>
    ensures { OnOk result (Puts name.now (chosen choice edit.now (files_of left.old name.now))
        (files_of left.old) (files_of left.new)) }
{
    if choice == 0 || !edit.fits() {
        return Ok(());
    }
    if choice == 1 {
        return left.edit(alloc, name, edit);
    }
    let mut bytes = match left.take(name) {
        Some(bytes) => bytes,
        None => Vec::new(alloc),
    };
    edit.flood(choice, &mut bytes)?;
    left.put(alloc, name, bytes)
}

impl Edit {
    // Does the edit with this byte for each new one.
    fn flood(&self, byte: u8, file: &mut Vec<u8>) -> Result<(), AllocError>
        requires { IsTrue (fits self.now) }
        ensures { OnOk result (file.new.items ≡ flooded byte self.now file.old.items) }
    {
        match self {
            Edit::Write { at, bytes } => {
                let at = *at as usize;
                let end = at + bytes.bytes().len();
                if file.len() < end {
                    file.resize(end, byte)?;
                }
                file[at..end].fill(byte);
                Ok(())
            }
            Edit::Resize { len } => file.resize(*len as usize, byte),
        }
    }
}

// The choice for a call of these files before these calls, and the choices that are left for them.
fn choose<'a>(files: &Contents, choices: &'a [u8], call: &Call, later: &[Call]) -> (u8, &'a [u8])
    ensures choice { result.0
        ≡ choice_of (files_of files.now) choices.now call.now later.now }
    ensures rest { result.1.now
        ≡ choices_after (files_of files.now) choices.now call.now later.now }
{
    if !call.is_pending(files, later) {
        return (call.as_it_was(), choices);
    }
    match choices.split_first() {
        Some((choice, rest)) => (*choice, rest),
        None => (0, choices),
    }
}

fn behind(calls: &[Call], index: usize) -> &[Call]
    requires { index < length calls.now }
    ensures { result.now ≡ drop (index + 1) calls.now }
{
    &calls[index + 1..]
}

// What a crash leaves after these calls, by these choices.
pub fn survivors(
    alloc: Global,
    start: &Contents,
    calls: &[Call],
    choices: &[u8],
) -> Result<Contents, AllocError>
    ensures { IfOk result (λ left. IsSame
        (crashed (files_of start.now) (files_of start.now) choices.now calls.now)
        (files_of left)) }
{
    let mut files = start.copy()?;
    let mut left = start.copy()?;
    let mut choices = choices;
    for (index, call) in calls.iter().enumerate() {
        let (choice, rest) = choose(&files, choices, call, behind(calls, index));
        call.leave(alloc, choice, &mut left)?;
        call.leave(alloc, call.as_it_was(), &mut files)?;
        choices = rest;
    }
    Ok(left)
}
