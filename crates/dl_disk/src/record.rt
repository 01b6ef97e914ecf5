// The calls that a disk in memory had.
ghost use Rattle.std.specs.Prelude.{IsTrue, OnOk, OnErr};
ghost use Rattle.dl_disk.specs.Contents.{files_of};
ghost use Rattle.dl_disk.specs.Files.{IsSame};
ghost use Rattle.dl_disk.specs.Record.{can_do, changed};

use crate::contents::Contents;
use crate::edits::Edit;
use dl_kinds::Text;
use std::alloc::{AllocError, Global};

/// What a call asks of a file, or of a folder.
#[derive(Debug, Drop)]
pub enum Action {
    /// Its length.
    Look,
    Read { at: u64, len: u64 },
    Change(Edit),
    Sync,
    MakeDir,
    /// Its place under another name.
    Replace { to: Text },
    Remove,
}

#[derive(Debug, Drop)]
pub struct Call {
    pub name: Text,
    pub action: Action,
    pub done: bool,
}

impl Action {
    /// Does it. Only a change needs anything of the files.
    pub fn perform(
        &self,
        alloc: Global,
        name: &str,
        contents: &mut Contents,
    ) -> Result<(), AllocError>
        requires { IsTrue (can_do (files_of contents.old) name.now self.now) }
        ensures ok { OnOk result (IsSame (changed (files_of contents.old) name.now self.now)
            (files_of contents.new)) }
        ensures err { OnErr result (IsSame (files_of contents.old) (files_of contents.new)) }
    {
        match self {
            Action::Change(edit) => contents.edit(alloc, name, edit),
            Action::Replace { to } => contents.rename(alloc, name, to.as_str()),
            Action::Remove => {
                contents.remove(name);
                Ok(())
            }
            Action::Look | Action::Read { .. } | Action::Sync | Action::MakeDir => Ok(()),
        }
    }
}
