// The work of a run, up to its stop.
ghost use Rattle.std.specs.Prelude.{◌≡◌};
ghost use Rattle.solo_run.specs.Runs as specs;
ghost use Rattle.solo_run.specs.Runs.{WorksThrough};

use conn_worker::{Spent, WorkEnd, work};
use dl_clock::Clock;
use dl_disk::Disk;
use dl_kinds::Moment;
use engine_core::Engine;
use engine_turns::{Operation, Said};
use link_source::Links;
use std::alloc::Global;
use turn_desk::{Desk, SoloDesk, a_sole_owner_took_all, turns_add_up};

/// What came of the work.
pub(crate) struct Worked<D: Disk> {
    pub(crate) engine: Engine<D>,
    /// Memory was wanting, for the worker or for the last saves.
    pub(crate) is_short: bool,
}

// Memory was wanting, for the worker or for the turn behind it.
fn is_short(came: Result<WorkEnd, Spent>, said: &Said) -> bool
    ensures { result ≡ specs.is_short came said.now }
{
    came == Ok(WorkEnd::NoMemory) || matches!(said, Said::NoMemory)
}

/// Works over the link until nothing is left to do, or nothing more can be done, and stops the run.
pub(crate) fn work_through<L: Links, K: Clock, D: Disk>(
    alloc: Global,
    desk: SoloDesk<Engine<D>>,
    link: &mut L,
    clock: &mut K,
) -> Worked<D>
    ensures { WorksThrough D.Disk L.Links K.Clock desk (link.old, clock.old)
        result.engine (link.new, clock.new) result.is_short }
{
    turns_add_up::<Engine<D>>();
    let mut desk = desk;
    let worked = work(alloc, &mut desk, 0, link, clock);
    let stopped = desk.turn(Operation::Stop { now: Moment(0) });
    a_sole_owner_took_all(&desk);
    let is_short = is_short(worked, &stopped.said);
    Worked {
        engine: desk.into_served(),
        is_short,
    }
}
