// A run over all links and doors.
ghost use Rattle.std.specs.Prelude.{◌≡◌, ◌≤◌, ◌||◌, false, IsTrue, length, map, string_bytes};
ghost use Rattle.served_runs.specs.Completes.{CompletesServed};
ghost use Rattle.served_runs.specs.CompletesUris.{CompletesUris};
ghost use Rattle.served_runs.specs.LinksCauses.{ShowsLinks};
ghost use Rattle.served_runs.specs.Over.{IsRunOver};
ghost use Rattle.served_runs.specs.Served.{SparesServing};
ghost use Rattle.served_runs.specs.Unfinished.{ShowsUnfinished};
ghost use Rattle.run_lifecycle.specs.DiskCauses.{LeavesOtherFiles, ShowsDisk};
ghost use Rattle.run_lifecycle.specs.Endings.{EndsAsShown};
ghost use Rattle.run_lifecycle.specs.Histories.{IsHistory};
ghost use Rattle.run_lifecycle.specs.Printing.{PrintsText};
ghost use Rattle.run_lifecycle.specs.Survivals.{SurvivesRun};
ghost use Rattle.shared_run.specs.declared.limits.TheConstants.{MAX_DOORS, MAX_LINKS};
ghost use Rattle.shared_run.specs.DoorsCauses.{ShowsDoors};
ghost use Rattle.shared_run.specs.LinksLeft.{LeavesLinks};
ghost use Rattle.shared_run.specs.RunsTogether.{GoesOnBegun, GoesTogether, RunsTogether, edges, edges_left, ended_run};
ghost use Rattle.shared_run.specs.Together.{ComesFirst};

use crate::finished::FinishedRun;
use crate::work::{Work, work_through};
use conn_worker::turns_bring_what_came;
use console_session::{
    Transcript, calls_stand_where_replied, doors_tell_notices, replies_are_of_the_history,
};
use dl_clock::Clock;
use dl_disk::Disk;
use dl_kinds::Sink;
use door_source::Doors;
use engine_turns::turns_tell_runs;
use link_source::Links;
use machine_core::Journal;
use run_lifecycle::{
    Begun, Ended, Unbegun, begin, begun_runs_are_stopped, finish, refuse, runs_end_as_shown,
    runs_print_one_text, runs_show_their_disk, unbegun_runs_only_read,
};
use served_runs::{
    linked_runs_have_histories, linked_runs_leave_other_files, linked_runs_survive_crashes,
    runs_complete_uris, runs_complete_what_is_served, runs_show_their_links,
    runs_show_why_unfinished, runs_spare_serving_mirrors,
};
use std::alloc::Global;
use std::sync::Wait;
use std::sync::atomic::AtomicBool;
use std::thread::Threads;

/// What is left of a run that came to its end, its links and its doors, and what was done at these.
pub(crate) struct Left<D, L, A, K> {
    pub(crate) ended: Ended<D>,
    pub(crate) links: Vec<(L, K)>,
    pub(crate) doors: Vec<(A, K)>,
    pub(crate) transcripts: Vec<Transcript>,
}

fn either(first: bool, second: bool) -> bool
    ensures { result ≡ first || second }
{
    first || second
}

// All workers work, these doors are served, and the run ends.
fn go_through<
    R: Threads + Wait + Sync,
    D: Disk + Send,
    L: Links + Send,
    A: Doors + Send,
    K: Clock + Send,
    O: Sink,
>(
    rt: &R,
    alloc: Global,
    begun: Begun<D>,
    over: &AtomicBool,
    links: Vec<(L, K)>,
    doors: Vec<(A, K)>,
    out: &mut O,
) -> Left<D, L, A, K>
    requires links { (1 ≤ length links.items) × (length links.items ≤ MAX_LINKS) }
    requires doors { length doors.items ≤ MAX_DOORS }
    requires first { ComesFirst begun.desk.own }
    ensures { GoesTogether D.Disk L.Links K.Clock A.Doors O.Sink begun
        (edges links.items doors.items) out.old result.ended
        (edges result.links.items result.doors.items) result.transcripts.items out.new }
{
    let Begun {
        desk,
        is_short,
        console,
    } = begun;
    let Work {
        engine,
        links,
        doors,
        transcripts,
        is_short: is_work_short,
    } = work_through(rt, alloc, desk, &console, over, links, doors);
    Left {
        ended: finish(alloc, engine, either(is_short, is_work_short), out),
        links,
        doors,
        transcripts,
    }
}

// Doors are served where the console is on.
fn go_on<
    R: Threads + Wait + Sync,
    D: Disk + Send,
    L: Links + Send,
    A: Doors + Send,
    K: Clock + Send,
    O: Sink,
>(
    rt: &R,
    alloc: Global,
    begun: Begun<D>,
    over: &AtomicBool,
    links: Vec<(L, K)>,
    doors: Vec<(A, K)>,
    out: &mut O,
) -> Left<D, L, A, K>
    requires links { (1 ≤ length links.items) × (length links.items ≤ MAX_LINKS) }
    requires doors { length doors.items ≤ MAX_DOORS }
    requires first { ComesFirst begun.desk.own }
    ensures { GoesOnBegun D.Disk L.Links K.Clock A.Doors O.Sink begun
        (edges links.items doors.items) out.old result.ended
        (edges result.links.items result.doors.items) result.transcripts.items out.new }
{
    if begun.console.is_on {
        return go_through(rt, alloc, begun, over, links, doors, out);
    }
    let no_doors = Vec::<(A, K)>::new(alloc);
    let Left {
        ended,
        links,
        doors: none,
        transcripts,
    } = go_through(rt, alloc, begun, over, links, no_doors, out);
    none.destroy_empty();
    Left {
        ended,
        links,
        doors,
        transcripts,
    }
}

// The run of these words over these links and doors.
fn run_through<
    R: Threads + Wait + Sync,
    D: Disk + Send,
    L: Links + Send,
    A: Doors + Send,
    K: Clock + Send,
    O: Sink,
>(
    rt: &R,
    alloc: Global,
    words: &[String],
    disk: D,
    over: &AtomicBool,
    links: Vec<(L, K)>,
    doors: Vec<(A, K)>,
    gids: u64,
    out: &mut O,
) -> Left<D, L, A, K>
    requires links { (1 ≤ length links.items) × (length links.items ≤ MAX_LINKS) }
    requires doors { length doors.items ≤ MAX_DOORS }
    ensures { RunsTogether D.Disk L.Links K.Clock A.Doors O.Sink (map string_bytes words.now) gids
        disk (edges links.items doors.items) out.old result.ended
        (edges result.links.items result.doors.items) result.transcripts.items out.new }
{
    match begin(alloc, words, disk, gids, doors.len() as u16) {
        Ok(begun) => go_on(rt, alloc, begun, over, links, doors, out),
        Err(Unbegun { ending, disk }) => Left {
            ended: Ended {
                ending: refuse(alloc, ending, out),
                disk,
                journal: Journal::new(alloc),
            },
            links,
            doors,
            transcripts: Vec::new(alloc),
        },
    }
}

/// The run of these words, which stand behind the program's name, over all links: one worker for each, in a thread of its own
/// where one can be started. Where the words turn the console on, each door is served beside them by a session, numbered
/// from 1 on, in a thread of its own; otherwise doors aren't used. `gids` is what the ids of downloads are made from. `over` is
/// set once a worker's work ended, or a door found the run finished: from then on nothing is waited for, so an edge may fail
/// a call that would still wait.
pub fn run_shared<
    R: Threads + Wait + Sync,
    D: Disk + Send,
    L: Links + Send,
    A: Doors + Send,
    K: Clock + Send,
    O: Sink,
>(
    rt: &R,
    alloc: Global,
    words: &[String],
    disk: D,
    over: &AtomicBool,
    links: Vec<(L, K)>,
    doors: Vec<(A, K)>,
    gids: u64,
    out: &mut O,
) -> FinishedRun<D, L, K, A>
    requires links { (1 ≤ length links.items) × (length links.items ≤ MAX_LINKS) }
    requires doors { length doors.items ≤ MAX_DOORS }
    // What was done over the links and at the doors, from the words to the summary.
    ensures does { RunsTogether D.Disk L.Links K.Clock A.Doors O.Sink (map string_bytes words.now)
        gids disk (edges links.items doors.items) out.old (ended_run result) (edges_left result)
        result.transcripts.items out.new }
    // How it ended is shown.
    ensures ending { EndsAsShown D.Disk O.Sink (map string_bytes words.now) gids
        (length doors.items) disk out.old (ended_run result) out.new }
    // Why it didn't begin is printed, or the summary, and nothing else.
    ensures output { PrintsText D.Disk O.Sink (map string_bytes words.now) gids
        (length doors.items) disk out.old (ended_run result) out.new }
    // Where it is unfinished it was told to shut down, or a worker met a full journal, or only paused downloads were left.
    ensures unfinished { ShowsUnfinished false L.Links (map string_bytes words.now) gids
        (length doors.items) links.items result.links.items (ended_run result) }
    // One legal history, which begins with the call of the line and leaves nothing unsaved.
    ensures history { IsHistory D.Disk (map string_bytes words.now) gids
        (length doors.items) disk (ended_run result) }
    // What it tells of the disk was so, and files that weren't asked for are as they were.
    ensures disk { ShowsDisk D.Disk (map string_bytes words.now) gids
        (length doors.items) disk (ended_run result) }
    ensures others { IsTrue D.tells → LeavesOtherFiles D.Disk (map string_bytes words.now) gids
        (length doors.items) disk (ended_run result) }
    // What it tells of a claim's loss or length came over the link of the claim's worker.
    ensures links { ShowsLinks L.Links (map string_bytes words.now) gids (length doors.items)
        result.journal.events.items links.items result.links.items }
    // A mirror that serves a payload is held to account for faults of links alone.
    ensures marks { IsTrue L.tells → SparesServing D.Disk L.Links (map string_bytes words.now)
        gids (length doors.items) links.items result.links.items (ended_run result) }
    // What is served comes: a run whose links lead to all of a metainfo file's payload is done, unless it was cut short.
    ensures completes { IsTrue D.tells → IsTrue L.tells → CompletesServed false D.Disk L.Links
        O.Sink (map string_bytes words.now) gids (length doors.items) disk links.items out.old (ended_run result)
        result.links.items out.new }
    // So it does without a metainfo file, where all mirrors lead alike to one resource and no file stands in its folder; and
    // then its file has just the resource's bytes.
    ensures completes_uris { IsTrue D.tells → IsTrue L.tells → CompletesUris false D.Disk L.Links
        O.Sink (map string_bytes words.now) gids (length doors.items) disk links.items out.old (ended_run result)
        result.links.items out.new }
    // What is complete has its digests, and nothing that was promised is lost by a crash.
    ensures survives { IsTrue D.tells → SurvivesRun D.Disk (map string_bytes words.now) gids
        (length doors.items) disk (ended_run result) }
    // It is a run of its frame, whose turns between the line's call and the stop are of workers and doors.
    ensures over { IsRunOver D.Disk O.Sink false L.Links (map string_bytes words.now) gids
        (length doors.items) disk links.items out.old (ended_run result) result.links.items out.new }
    // Nothing else is touched, and each link keeps its place.
    ensures untouched { LeavesLinks D.Disk L.Links disk links.items (ended_run result)
        result.links.items }
    // Each door was served by the session of its number, and what its clients were told is of the one history, all calls of
    // which are theirs or the line's own; or none was.
    ensures doors { ShowsDoors A.Doors K.Clock (map string_bytes words.now) gids
        (edges links.items doors.items) (ended_run result) (edges_left result)
        result.transcripts.items }
{
    begun_runs_are_stopped::<D, O>();
    runs_end_as_shown::<D, O>();
    runs_print_one_text::<D, O>();
    linked_runs_have_histories::<D, L, K, O>();
    runs_show_their_disk::<D, O>();
    linked_runs_leave_other_files::<D, L, K, O>();
    runs_show_their_links::<D, L, K, O>();
    runs_show_why_unfinished::<D, L, K, O>();
    runs_spare_serving_mirrors::<D, L, K, O>();
    runs_complete_what_is_served::<D, L, K, O>();
    runs_complete_uris::<D, L, K, O>();
    linked_runs_survive_crashes::<D, L, K, O>();
    unbegun_runs_only_read::<D, O>();
    turns_bring_what_came();
    turns_tell_runs();
    replies_are_of_the_history();
    calls_stand_where_replied();
    doors_tell_notices();
    let Left {
        ended,
        links,
        doors,
        transcripts,
    } = run_through(rt, alloc, words, disk, over, links, doors, gids, out);
    let Ended {
        ending,
        disk,
        journal,
    } = ended;
    FinishedRun {
        ending,
        disk,
        links,
        doors,
        transcripts,
        journal,
    }
}
