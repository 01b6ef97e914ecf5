// A load, from its number to its line.
ghost use Rattle.std.specs.Prelude.{◌≡◌, IsTrue};
ghost use Rattle.dl_kinds.specs.Causes.{HasCause};
ghost use Rattle.dl_kinds.specs.Sinks.{Takes};
ghost use Rattle.run_report.specs.declared.endings.RunEnding.TheVariants.{Done};
ghost use Rattle.self_load.specs.Inner.{IsOfInnerRun};
ghost use Rattle.self_load.specs.Outcomes.{ComesOf, EndsByJournal, EndsLoad, IsRightLoad, line_by};

use crate::outcome::{Came, Outcome, ending_of, line_of, load};
use console_session::Transcript;
use dl_clock::{Clock, MemClock};
use dl_disk::Disk;
use dl_kinds::{IoErr, Sink};
use door_source::{Doors, MemDoors};
use link_source::Links;
use load_setup::{SoundDisk, SoundLinks, UnseenSink};
use machine_core::Journal;
use run_report::RunEnding;
use std::alloc::Global;
use std::sync::Wait;
use std::thread::Threads;

/// What is left of a load.
#[derive(Drop)]
pub struct Loaded {
    pub ending: RunEnding,
    /// The journal of its run. It is empty where memory was wanting before that.
    pub journal: Journal,
    /// What the console of its run did. It has no door.
    pub transcripts: Vec<Transcript>,
}

// What comes of the load; where memory is wanting, that.
fn came_of<R: Threads + Wait + Sync>(rt: &R, alloc: Global, n: u64) -> Came
    ensures comes { ComesOf ⟦<SoundDisk as Disk>⟧ ⟦<SoundLinks as Links>⟧ ⟦<MemClock as Clock>⟧
        ⟦<MemDoors as Doors>⟧ ⟦<UnseenSink as Sink>⟧ n result.outcome result.journal }
    ensures inner { IsOfInnerRun ⟦<SoundDisk as Disk>⟧ ⟦<SoundLinks as Links>⟧
        ⟦<MemClock as Clock>⟧ ⟦<MemDoors as Doors>⟧ ⟦<UnseenSink as Sink>⟧ n result.journal
        result.transcripts.items }
{
    match load(rt, alloc, n) {
        Ok(came) => came,
        Err(_) => Came {
            outcome: Outcome::Failed(RunEnding::NoMemory),
            journal: Journal::new(alloc),
            transcripts: Vec::new(alloc),
        },
    }
}

fn told<O: Sink>(alloc: Global, n: u64, outcome: &Outcome, out: &mut O) -> Result<(), IoErr>
    ensures bytes { IsTrue O.tells
        → Takes (O.taken out.old) (line_by n outcome.now) (O.taken out.new) result }
    ensures cause { HasCause (O.faults out.old) (O.faults out.new) result }
{
    let line = line_of(alloc, n, outcome)?;
    out.write(line.as_bytes())
}

/// Runs the load of this number over mirrors, a disk and clocks in memory, and prints its line.
pub fn run_load<R: Threads + Wait + Sync, O: Sink>(
    rt: &R,
    alloc: Global,
    n: u64,
    out: &mut O,
) -> Loaded
    ensures ends { EndsLoad ⟦<SoundDisk as Disk>⟧ ⟦<SoundLinks as Links>⟧ ⟦<MemClock as Clock>⟧
        ⟦<MemDoors as Doors>⟧ ⟦<UnseenSink as Sink>⟧ O.Sink n out.old result out.new }
    // It is done just where the journal of its run, which is handed back, has its Complete, and otherwise
    // unfinished with a full journal, unless memory was wanting or the output failed.
    ensures journal { EndsByJournal ⟦<SoundDisk as Disk>⟧ ⟦<SoundLinks as Links>⟧ ⟦<MemClock as Clock>⟧
        ⟦<MemDoors as Doors>⟧ ⟦<UnseenSink as Sink>⟧ O.Sink n out.old result out.new }
    // That journal and the transcripts are those of its run, unless memory was wanting before it.
    ensures inner { IsOfInnerRun ⟦<SoundDisk as Disk>⟧ ⟦<SoundLinks as Links>⟧
        ⟦<MemClock as Clock>⟧ ⟦<MemDoors as Doors>⟧ ⟦<UnseenSink as Sink>⟧ n result.journal
        result.transcripts.items }
    // Where it is done, every piece on its disk has its digest.
    ensures right { result.ending ≡ Done → IsRightLoad ⟦<SoundDisk as Disk>⟧
        ⟦<SoundLinks as Links>⟧ ⟦<MemClock as Clock>⟧ ⟦<MemDoors as Doors>⟧ ⟦<UnseenSink as Sink>⟧ n
        result.journal }
{
    let Came {
        outcome,
        journal,
        transcripts,
    } = came_of(rt, alloc, n);
    match told(alloc, n, &outcome, out) {
        Ok(()) => Loaded {
            ending: ending_of(&outcome),
            journal,
            transcripts,
        },
        Err(IoErr::Fault) => Loaded {
            ending: RunEnding::SinkFault,
            journal,
            transcripts,
        },
        Err(IoErr::NoMemory) => Loaded {
            ending: RunEnding::NoMemory,
            journal,
            transcripts,
        },
    }
}
