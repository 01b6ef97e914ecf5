// Notices of changed downloads.
ghost use Rattle.std.specs.Prelude.{◌≡◌, ◌<◌, length, option_copied, slice_get};

use dl_kinds::Gid;
use std::marker::Model;

/// The most notices that are told at once.
pub const MOST_NOTICES: usize = 64;

/// What came of a download (aria2 manual, "RPC interface": `aria2.onDownloadStart` and so on).
#[derive(Clone, Copy, Debug, PartialEq, Eq)]
pub enum NoticeKind {
    /// It became active.
    Start,
    Pause,
    /// It was removed.
    Stop,
    Complete,
    /// It failed.
    Error,
}

/// The status of a download changed.
#[derive(Clone, Copy, Debug, PartialEq, Eq)]
pub struct Notice {
    pub kind: NoticeKind,
    pub gid: Gid,
}

/// A place among the notices of a history: an event's place and a number within its notices.
#[derive(Clone, Copy, Debug, PartialEq, Eq)]
pub struct Cursor {
    pub event: u32,
    pub nth: u32,
}

/// A notice, and where it stands.
#[derive(Clone, Copy, Debug, PartialEq, Eq)]
pub(crate) struct PlacedNotice {
    pub(crate) at: Cursor,
    pub(crate) notice: Notice,
}

/// A list of notices, the oldest first.
#[derive(Debug, Drop)]
pub struct Notices {
    notices: Vec<Notice>,
}

impl Model for Notices {
    ghost use Rattle.std.specs.Prelude.{List};
    ghost use Rattle.machine_core.specs.declared.notices.Notice.{Notice as NoticeTold};

    ghost Value = { List NoticeTold };

    ghost view = { λ n. n.notices.items };
}

impl Notices {
    /// The notices of a list.
    pub fn of(notices: Vec<Notice>) -> Self
        ensures { result ≡ notices.items }
    {
        Notices { notices }
    }

    pub fn as_slice(&self) -> &[Notice]
        ensures { result.now ≡ self.now }
    {
        &self.notices
    }

    pub fn len(&self) -> usize
        ensures { result ≡ length self.now }
    {
        self.notices.len()
    }

    /// The notice at a place, from 0.
    pub fn get(&self, place: usize) -> Option<&Notice>
        ensures { option_copied result ≡ slice_get self.now place }
    {
        self.notices.get(place)
    }
}
