// What comes of a load, and how that is told.
ghost use Rattle.std.specs.Prelude.{◌≡◌, IfOk, length, string_bytes};
ghost use Rattle.load_setup.specs.Disk.{payload_read};
ghost use Rattle.load_setup.specs.Sound.{sound_reading};
ghost use Rattle.load_setup.specs.declared.payload.TheConstants.{PIECES};
ghost use Rattle.self_load.specs.Inner.{IsOfInnerRun};
ghost use Rattle.self_load.specs.Outcomes.{ComesOf, IsCountOf, ending_of_outcome, line_by};

use crate::inner::run_inner;
use console_session::Transcript;
use dl_clock::{Clock, MemClock};
use dl_disk::Disk;
use dl_kinds::{Digests, NoMemory, Sink};
use door_source::{Doors, MemDoors};
use link_source::Links;
use load_setup::{
    SoundDisk, SoundLinks, UnseenSink, count_right, failed_line, load_digests, payload_on,
    whole_line,
};
use machine_core::Journal;
use run_report::RunEnding;
use sha1::Sha1;
use shared_run::FinishedRun;
use std::alloc::{AllocError, Global};
use std::sync::Wait;
use std::thread::Threads;

/// What comes of a load.
#[derive(Drop)]
pub enum Outcome {
    /// Its run was done. So many pieces on its disk are right, and the payload has this digest.
    Counted { right: u64, digest: [u8; 20] },
    /// Memory was wanting, or its run is unfinished.
    Failed(RunEnding),
}

/// What comes of a load, the journal of its run, and what its console did: it has no door.
pub(crate) struct Came {
    pub(crate) outcome: Outcome,
    pub(crate) journal: Journal,
    pub(crate) transcripts: Vec<Transcript>,
}

// What the disk shows behind a run that was done.
fn counted<R: Threads + Sync>(
    rt: &R,
    alloc: Global,
    digests: &Digests,
    disk: &SoundDisk,
) -> Result<Outcome, AllocError>
    requires { length digests.now ≡ PIECES }
    ensures { IfOk result (IsCountOf digests.now (payload_read (sound_reading disk.now))) }
{
    let payload = payload_on(disk);
    Ok(Outcome::Counted {
        right: count_right(rt, alloc, digests, payload)?,
        digest: Sha1::digest(payload),
    })
}

/// Runs the load of this number.
pub(crate) fn load<R: Threads + Wait + Sync>(
    rt: &R,
    alloc: Global,
    n: u64,
) -> Result<Came, NoMemory>
    ensures comes { IfOk result (λ came. ComesOf ⟦<SoundDisk as Disk>⟧ ⟦<SoundLinks as Links>⟧
        ⟦<MemClock as Clock>⟧ ⟦<MemDoors as Doors>⟧ ⟦<UnseenSink as Sink>⟧ n came.outcome
        came.journal) }
    ensures inner { IfOk result (λ came. IsOfInnerRun ⟦<SoundDisk as Disk>⟧ ⟦<SoundLinks as Links>⟧
        ⟦<MemClock as Clock>⟧ ⟦<MemDoors as Doors>⟧ ⟦<UnseenSink as Sink>⟧ n came.journal
        came.transcripts.items) }
{
    let digests = load_digests(alloc, n)?;
    let FinishedRun {
        ending,
        disk,
        links: _links,
        doors: _doors,
        transcripts,
        journal,
    } = run_inner(rt, alloc, n, &digests)?;
    match ending {
        RunEnding::Done => {
            let outcome = counted(rt, alloc, &digests, &disk)?;
            Ok(Came {
                outcome,
                journal,
                transcripts,
            })
        }
        _ => Ok(Came {
            outcome: Outcome::Failed(ending),
            journal,
            transcripts,
        }),
    }
}

/// How the load ended.
pub(crate) fn ending_of(outcome: &Outcome) -> RunEnding
    ensures { result ≡ ending_of_outcome outcome.now }
{
    match outcome {
        Outcome::Counted { .. } => RunEnding::Done,
        Outcome::Failed(ending) => *ending,
    }
}

pub(crate) fn line_of(alloc: Global, n: u64, outcome: &Outcome) -> Result<String, AllocError>
    ensures { IfOk result (λ line. string_bytes line ≡ line_by n outcome.now) }
{
    match outcome {
        Outcome::Counted { right, digest } => whole_line(alloc, n, *right, digest),
        Outcome::Failed(ending) => failed_line(alloc, n, ending.code()),
    }
}
