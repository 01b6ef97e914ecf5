// The downloads of a list, one by one.
ghost use Rattle.std.specs.Prelude.{◌≡◌, map};
ghost use Rattle.std.specs.Iterator.{YieldsFirst, item_count};
ghost use Rattle.dl_queue.specs.Held.{gid_numbered, queued_download, stopped_download, AreNumbersOf};

use crate::kinds::ending_by_standing;
use crate::lines::{gid_of, is_ready, standing_of};
use crate::{Added, Queued, Stopped};
use dl_kinds::{Gid, Status};
use number_list::Numbers;
use std::marker::Model;

/// The active downloads from one on, in the order in which they became active.
#[derive(Drop)]
pub struct ActiveGids<'a> {
    added: &'a [Added],
    numbers: Numbers<'a>,
}

impl<'a> Model for ActiveGids<'a> {
    ghost use Rattle.std.specs.Prelude.{List, map};
    ghost use Rattle.dl_kinds.specs.declared.gid.Gid.{Gid as DownloadGid};
    ghost use Rattle.dl_queue.specs.Held.{gid_numbered, AreNumbersOf};

    ghost Value = { List DownloadGid };

    ghost view = { λ s. map (gid_numbered s.added.now) s.numbers };

    ghost invariant = { λ s. AreNumbersOf s.added.now s.numbers };
}

impl<'a> ActiveGids<'a> {
    pub(crate) fn of(added: &'a [Added], numbers: Numbers<'a>) -> Self
        requires { AreNumbersOf added.now numbers }
        ensures { result ≡ map (gid_numbered added.now) numbers.entry }
    {
        ActiveGids { added, numbers }
    }
}

impl<'a> Iterator for ActiveGids<'a> {
    type Item = Gid;

    ghost next_gives = { YieldsFirst (λ s. s) };

    ghost remaining = { item_count (λ s. s) };

    fn next(&mut self) -> Option<Gid> {
        let number = self.numbers.next()?;
        Some(gid_of(self.added, number))
    }
}

/// The waiting and paused downloads from one on, in the order in which they wait.
#[derive(Drop)]
pub struct QueuedDownloads<'a> {
    added: &'a [Added],
    standings: &'a [Option<Status>],
    numbers: Numbers<'a>,
}

impl<'a> Model for QueuedDownloads<'a> {
    ghost use Rattle.std.specs.Prelude.{List, map};
    ghost use Rattle.dl_queue.specs.declared.kinds.Queued.{Queued as QueuedDownload};
    ghost use Rattle.dl_queue.specs.Held.{queued_download, AreNumbersOf};

    ghost Value = { List QueuedDownload };

    ghost view = { λ s. map (queued_download s.added.now s.standings.now) s.numbers };

    ghost invariant = { λ s. AreNumbersOf s.added.now s.numbers × AreNumbersOf s.standings.now s.numbers };
}

impl<'a> QueuedDownloads<'a> {
    pub(crate) fn of(
        added: &'a [Added],
        standings: &'a [Option<Status>],
        numbers: Numbers<'a>,
    ) -> Self
        requires within { AreNumbersOf added.now numbers }
        requires are { AreNumbersOf standings.now numbers }
        ensures { result ≡ map (queued_download added.now standings.now) numbers.entry }
    {
        QueuedDownloads {
            added,
            standings,
            numbers,
        }
    }
}

impl<'a> Iterator for QueuedDownloads<'a> {
    type Item = Queued;

    ghost next_gives = { YieldsFirst (λ s. s) };

    ghost remaining = { item_count (λ s. s) };

    fn next(&mut self) -> Option<Queued> {
        let number = self.numbers.next()?;
        Some(Queued {
            gid: gid_of(self.added, number),
            paused: !is_ready(standing_of(self.standings, number)),
        })
    }
}

/// The stopped downloads from one on, the oldest first.
#[derive(Drop)]
pub struct StoppedDownloads<'a> {
    added: &'a [Added],
    standings: &'a [Option<Status>],
    numbers: Numbers<'a>,
}

impl<'a> Model for StoppedDownloads<'a> {
    ghost use Rattle.std.specs.Prelude.{List, map};
    ghost use Rattle.dl_queue.specs.declared.kinds.Stopped.{Stopped as StoppedDownload};
    ghost use Rattle.dl_queue.specs.Held.{stopped_download, AreNumbersOf};

    ghost Value = { List StoppedDownload };

    ghost view = { λ s. map (stopped_download s.added.now s.standings.now) s.numbers };

    ghost invariant = { λ s. AreNumbersOf s.added.now s.numbers × AreNumbersOf s.standings.now s.numbers };
}

impl<'a> StoppedDownloads<'a> {
    pub(crate) fn of(
        added: &'a [Added],
        standings: &'a [Option<Status>],
        numbers: Numbers<'a>,
    ) -> Self
        requires within { AreNumbersOf added.now numbers }
        requires are { AreNumbersOf standings.now numbers }
        ensures { result ≡ map (stopped_download added.now standings.now) numbers.entry }
    {
        StoppedDownloads {
            added,
            standings,
            numbers,
        }
    }
}

impl<'a> Iterator for StoppedDownloads<'a> {
    type Item = Stopped;

    ghost next_gives = { YieldsFirst (λ s. s) };

    ghost remaining = { item_count (λ s. s) };

    fn next(&mut self) -> Option<Stopped> {
        let number = self.numbers.next()?;
        Some(Stopped {
            gid: gid_of(self.added, number),
            ending: ending_by_standing(standing_of(self.standings, number)),
        })
    }
}
