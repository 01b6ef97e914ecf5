// A run and its disk.
ghost use Rattle.std.specs.Prelude.{◌≡◌, ◌≤◌, IfSome, length, option_copied};
ghost use Rattle.control_file.specs.Wants.{IsWant};
ghost use Rattle.machine_core.specs.Reads.{downloads_in};
ghost use Rattle.stored_run.specs.Stored.{IsStoredRun};
ghost use Rattle.stored_run.specs.Views.{kept_want, kept_want_of};

use crate::following::runs_follow;
use control_file::Want;
use dl_disk::Disk;
use dl_kinds::{Gid, Moment};
use machine_core::Machine;
use std::alloc::Global;
use std::marker::Model;

/// What contracts see of a run and its disk. No value of it is made.
pub struct StoredView<D> {
    pub disk: D,
    pub machine: Machine,
    /// For each download that is opened, what the disk is to keep, by its place in the order of adding.
    pub wants: Vec<Option<Want>>,
    /// The latest moment that came.
    pub now: Moment,
}

/// A run, and the disk on which its downloads stand.
#[derive(Drop)]
pub struct StoredRun<D: Disk> {
    pub(crate) alloc: Global,
    pub(crate) disk: D,
    pub(crate) machine: Machine,
    pub(crate) wants: Vec<Option<Want>>,
    pub(crate) now: Moment,
}

impl<D: Disk> Model for StoredRun<D> {
    ghost use Rattle.stored_run.specs.declared.run.StoredView.{StoredView};
    ghost use Rattle.stored_run.specs.Stored.{IsStoredRun};

    ghost Value = { StoredView D };

    ghost view = { λ r. record { disk = r.disk; machine = r.machine; wants = r.wants; now = r.now } };

    ghost invariant = { λ r. IsStoredRun D.tells (D.faults r.disk) (D.state r.disk) record {
      disk = r.disk;
      machine = r.machine;
      wants = r.wants;
      now = r.now;
    } };
}

impl<D: Disk> StoredRun<D> {
    /// The run.
    pub fn machine(&self) -> &Machine
        ensures { result.now ≡ self.entry.now.machine }
    {
        &self.machine
    }

    /// What the type keeps, told as a fact before and after a call.
    pub fn tells_stored(&self)
        ensures { IsStoredRun D.tells (D.faults self.entry.now.disk)
            (D.state self.entry.now.disk) self.entry.now }
    {
        let _ = self.machine.doors();
    }

    // What the disk is to keep of a download that is opened.
    pub(crate) fn want(&self, gid: Gid) -> Option<&Want>
        ensures value { option_copied result ≡ kept_want_of self.entry.now gid }
        ensures sound { IfSome result (λ want. IsWant want.now) }
    {
        want_of(&self.machine, &self.wants, gid)
    }
}

// What the disk is to keep of a download that is opened.
pub(crate) fn want_of<'a>(
    machine: &Machine,
    wants: &'a [Option<Want>],
    gid: Gid,
) -> Option<&'a Want>
    requires { length wants.now ≤ length (downloads_in machine.now) }
    ensures { option_copied result
        ≡ kept_want wants.now machine.now.start machine.now.past gid }
{
    runs_follow();
    let Some(place) = machine.place(gid) else {
        return None;
    };
    if place < wants.len() {
        wants[place].as_ref()
    } else {
        None
    }
}
