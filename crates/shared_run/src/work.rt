// The work of a run over its links and at its doors, up to its stop.
ghost use Rattle.std.specs.Prelude.{◌≡◌, ◌≤◌, ◌+◌, ◌||◌, IfErr, IfOk, length};
ghost use Rattle.std.specs.List.{list_any};
ghost use Rattle.conn_worker.specs.Works.{RunSight};
ghost use Rattle.shared_run.specs.declared.limits.TheConstants.{MAX_DOORS, MAX_LINKS};
ghost use Rattle.shared_run.specs.RunsTogether.{edges};
ghost use Rattle.shared_run.specs.Together.{ComesFirst, HasRoom, IsShared, WorkEnds, WorksAndStops};

use crate::stop::stop;
use crate::together::take_part;
use console_session::Transcript;
use desk_participants::{Room, room_for, seat_all, unseat_all};
use dl_clock::Clock;
use dl_disk::Disk;
use door_source::Doors;
use engine_core::Engine;
use link_source::Links;
use run_lifecycle::ConsoleTerms;
use std::alloc::Global;
use std::sync::Wait;
use std::sync::atomic::AtomicBool;
use std::thread::Threads;
use turn_desk::{Closed, Pass, SoloDesk, TurnDesk, own_turns_keep_their_order};

/// A desk with a pass for each link and each door, and room for those who take part.
pub(crate) struct Shared<D: Disk, L, A, K> {
    pub(crate) desk: TurnDesk<Engine<D>>,
    pub(crate) passes: Vec<Pass<Engine<D>>>,
    pub(crate) workers: Room<Pass<Engine<D>>, L, K, bool>,
    pub(crate) keepers: Room<Pass<Engine<D>>, A, K, Transcript>,
}

/// What came of the work.
pub(crate) struct Work<D: Disk, L, A, K> {
    pub(crate) engine: Engine<D>,
    pub(crate) links: Vec<(L, K)>,
    pub(crate) doors: Vec<(A, K)>,
    pub(crate) transcripts: Vec<Transcript>,
    /// Memory was wanting.
    pub(crate) is_short: bool,
}

// A desk with a pass for each of so many links and doors. Where memory is wanting the owner's desk comes back.
fn share<D: Disk, L, A, K>(
    alloc: Global,
    solo: SoloDesk<Engine<D>>,
    links: u32,
    doors: u32,
) -> Result<Shared<D, L, A, K>, SoloDesk<Engine<D>>>
    requires links { (1 ≤ links) × (links ≤ MAX_LINKS) }
    requires doors { doors ≤ MAX_DOORS }
    ensures ok { IfOk result (IsShared solo (links + doors)) }
    ensures room { IfOk result (HasRoom links doors) }
    ensures err { IfErr result (λ given_back. given_back ≡ solo) }
{
    let Ok(workers) = room_for(alloc, links as usize) else {
        return Err(solo);
    };
    let Ok(keepers) = room_for(alloc, doors as usize) else {
        workers.clear_out();
        return Err(solo);
    };
    match TurnDesk::start(alloc, solo, links + doors) {
        Ok((desk, passes)) => Ok(Shared {
            desk,
            passes,
            workers,
            keepers,
        }),
        Err((solo, _)) => {
            workers.clear_out();
            keepers.clear_out();
            Err(solo)
        }
    }
}

// Whether memory was wanting for any of them.
fn any_short(shorts: &[bool]) -> bool
    ensures { result ≡ list_any (λ short. short) shorts.now }
{
    shorts.iter().any(|short| *short)
}

// All take part in the desk, and it is closed.
fn work_shared<
    R: Threads + Wait + Sync,
    D: Disk + Send,
    L: Links + Send,
    A: Doors + Send,
    K: Clock + Send,
>(
    rt: &R,
    alloc: Global,
    shared: Shared<D, L, A, K>,
    console: &ConsoleTerms,
    over: &AtomicBool,
    links: Vec<(L, K)>,
    doors: Vec<(A, K)>,
) -> Work<D, L, A, K>
    requires links { (1 ≤ length links.items) × (length links.items ≤ MAX_LINKS) }
    requires doors { length doors.items ≤ MAX_DOORS }
    requires room { HasRoom (length links.items) (length doors.items) shared }
    requires shared { (solo : RunSight D)
        × IsShared solo (length links.items + length doors.items) shared }
    ensures { (solo : RunSight D) → IsShared solo (length links.items + length doors.items) shared
        → ComesFirst solo.own
        → WorkEnds D.Disk L.Links K.Clock A.Doors console.now solo (edges links.items doors.items)
        (edges result.links.items result.doors.items) result.transcripts.items
        result.engine result.is_short }
{
    own_turns_keep_their_order::<Engine<D>>();
    let Shared {
        desk,
        passes,
        workers,
        keepers,
    } = shared;
    let Room {
        seats: workers,
        came: shorts,
    } = workers;
    let Room {
        seats: keepers,
        came: transcripts,
    } = keepers;
    let (mut passes, mut links, mut doors) = (passes, links, doors);
    let (mut workers, mut keepers) = (workers, keepers);
    let (mut shorts, mut transcripts) = (shorts, transcripts);
    seat_all(&mut passes, &mut doors, &mut keepers);
    seat_all(&mut passes, &mut links, &mut workers);
    take_part(rt, alloc, &desk, console, over, &mut workers, &mut keepers);
    unseat_all(workers, &mut passes, &mut links, &mut shorts);
    unseat_all(keepers, &mut passes, &mut doors, &mut transcripts);
    match desk.close(passes) {
        Closed::Whole { served } => Work {
            engine: served,
            links,
            doors,
            transcripts,
            is_short: any_short(&shorts),
        },
        Closed::StillOut { .. } => unreachable!(),
    }
}

// Works over all links and serves all doors, where memory suffices for a desk.
fn work_edges<
    R: Threads + Wait + Sync,
    D: Disk + Send,
    L: Links + Send,
    A: Doors + Send,
    K: Clock + Send,
>(
    rt: &R,
    alloc: Global,
    solo: SoloDesk<Engine<D>>,
    console: &ConsoleTerms,
    over: &AtomicBool,
    links: Vec<(L, K)>,
    doors: Vec<(A, K)>,
) -> Work<D, L, A, K>
    requires links { (1 ≤ length links.items) × (length links.items ≤ MAX_LINKS) }
    requires doors { length doors.items ≤ MAX_DOORS }
    requires first { ComesFirst solo.own }
    ensures { WorkEnds D.Disk L.Links K.Clock A.Doors console.now solo
        (edges links.items doors.items) (edges result.links.items result.doors.items)
        result.transcripts.items result.engine result.is_short }
{
    match share(alloc, solo, links.len() as u32, doors.len() as u32) {
        Ok(shared) => work_shared(rt, alloc, shared, console, over, links, doors),
        Err(solo) => Work {
            engine: solo.into_served(),
            links,
            doors,
            transcripts: Vec::new(alloc),
            is_short: true,
        },
    }
}

fn either(first: bool, second: bool) -> bool
    ensures { result ≡ first || second }
{
    first || second
}

/// Works over all links and serves all doors until nothing is left to do, or nothing more can be done, and stops the run.
pub(crate) fn work_through<
    R: Threads + Wait + Sync,
    D: Disk + Send,
    L: Links + Send,
    A: Doors + Send,
    K: Clock + Send,
>(
    rt: &R,
    alloc: Global,
    solo: SoloDesk<Engine<D>>,
    console: &ConsoleTerms,
    over: &AtomicBool,
    links: Vec<(L, K)>,
    doors: Vec<(A, K)>,
) -> Work<D, L, A, K>
    requires links { (1 ≤ length links.items) × (length links.items ≤ MAX_LINKS) }
    requires doors { length doors.items ≤ MAX_DOORS }
    requires first { ComesFirst solo.own }
    ensures { WorksAndStops D.Disk L.Links K.Clock A.Doors console.now solo
        (edges links.items doors.items) (edges result.links.items result.doors.items)
        result.transcripts.items result.engine result.is_short }
{
    let Work {
        engine,
        links,
        doors,
        transcripts,
        is_short,
    } = work_edges(rt, alloc, solo, console, over, links, doors);
    let mut engine = engine;
    let is_stop_short = stop(&mut engine);
    Work {
        engine,
        links,
        doors,
        transcripts,
        is_short: either(is_short, is_stop_short),
    }
}
