// All who take part in the desk of a run, each in a thread of its own.
ghost use Rattle.std.specs.Prelude.{◌≡◌};
ghost use Rattle.shared_run.specs.Participants.{ServesAt, WorksAt};
ghost use Rattle.desk_participants.specs.Uses.{AllMayTakePart, AllTookPart, MayTakePart, TookPart};

use crate::taking_part::{serve_at, work_at};
use console_session::Transcript;
use desk_participants::{Participant, for_each_of_both};
use dl_clock::Clock;
use dl_disk::Disk;
use door_source::Doors;
use engine_core::Engine;
use link_source::Links;
use run_lifecycle::ConsoleTerms;
use std::alloc::Global;
use std::sync::Wait;
use std::sync::atomic::AtomicBool;
use std::thread::Threads;
use turn_desk::{Pass, TurnDesk};

// All of these workers work and all of these doors are served.
fn spread<
    R: Threads + Wait + Sync,
    D: Disk + Send,
    L: Links + Send,
    A: Doors + Send,
    K: Clock + Send,
>(
    rt: &R,
    alloc: Global,
    desk: &TurnDesk<Engine<D>>,
    console: &ConsoleTerms,
    over: &AtomicBool,
    workers: &mut [Participant<Pass<Engine<D>>, L, K, bool>],
    keepers: &mut [Participant<Pass<Engine<D>>, A, K, Transcript>],
)
    requires workers { AllMayTakePart desk.now workers.old }
    requires doors { AllMayTakePart desk.now keepers.old }
    ensures workers { AllTookPart desk.now (WorksAt L.Links K.Clock) workers.old workers.new }
    ensures doors { AllTookPart desk.now (ServesAt A.Doors K.Clock console.now) keepers.old keepers.new }
{
    for_each_of_both(
        rt,
        keepers,
        workers,
        &|_: usize, keeper: &mut Participant<Pass<Engine<D>>, A, K, Transcript>|
            requires { MayTakePart desk.now keeper.now }
            ensures { TookPart desk.entry.now (ServesAt A.Doors K.Clock console.entry.now)
                keeper.entry.now keeper.exit.now }
        { serve_at(rt, alloc, desk, over, console, keeper) },
        &|_: usize, worker: &mut Participant<Pass<Engine<D>>, L, K, bool>|
            requires { MayTakePart desk.now worker.now }
            ensures { TookPart desk.entry.now (WorksAt L.Links K.Clock)
                worker.entry.now worker.exit.now }
        { work_at(rt, alloc, desk, over, worker) },
    );
}

/// All workers work and all doors are served, each in a thread of its own. Where one can't be started its part is done behind
/// another's.
pub(crate) fn take_part<
    R: Threads + Wait + Sync,
    D: Disk + Send,
    L: Links + Send,
    A: Doors + Send,
    K: Clock + Send,
>(
    rt: &R,
    alloc: Global,
    desk: &TurnDesk<Engine<D>>,
    console: &ConsoleTerms,
    over: &AtomicBool,
    workers: &mut Vec<Participant<Pass<Engine<D>>, L, K, bool>>,
    keepers: &mut Vec<Participant<Pass<Engine<D>>, A, K, Transcript>>,
)
    requires workers { AllMayTakePart desk.now workers.old.items }
    requires doors { AllMayTakePart desk.now keepers.old.items }
    ensures workers { AllTookPart desk.now (WorksAt L.Links K.Clock) workers.old.items
        workers.new.items }
    ensures doors { AllTookPart desk.now (ServesAt A.Doors K.Clock console.now)
        keepers.old.items keepers.new.items }
{
    spread(
        rt,
        alloc,
        desk,
        console,
        over,
        workers.as_mut_slice(),
        keepers.as_mut_slice(),
    );
}
