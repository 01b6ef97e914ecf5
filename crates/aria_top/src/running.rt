// The run of every command.
ghost use Rattle.std.specs.Prelude.{◌≡◌, ◌&&◌, ◌==◌, ◌≤◌, length, map, not, string_bytes};
ghost use Rattle.aria_top.specs.Alone.{is_alone_by};
ghost use Rattle.aria_top.specs.Began.{BeganOrNot};
ghost use Rattle.aria_top.specs.Loads.{RunsLoads};
ghost use Rattle.aria_top.specs.OneRun.{one_run};
ghost use Rattle.aria_top.specs.Origins.{ServesFolders};
ghost use Rattle.aria_top.specs.PayloadChecks.{ChecksPayloads};
ghost use Rattle.aria_top.specs.Promises.{BoundsAlone, Completes, CompletesByPieces, CompletesMirrors, Does, HasEnding, HasHistory, HasOutput, LeavesOthers, LeavesUntouched, RefusesFirst, SparesMirrors, Survives, TellsDisk, TellsDoors, TellsLinks, TellsWhyUnfinished};
ghost use Rattle.aria_top.specs.Went.{WentByMeaning, WentForDownloads};
ghost use Rattle.command_line.specs.Lines.{IsLine};
ghost use Rattle.shared_run.specs.declared.limits.TheConstants.{MAX_DOORS, MAX_LINKS};

use crate::arms::{alone, check, load, refused, serve, together};
use command_line::{CommandLine, lines_are_one};
use command_meanings::{Meaning, load_words_are_no_line, meaning_of};
use dl_clock::{Clock, MemClock};
use dl_disk::Disk;
use dl_kinds::Sink;
use door_source::{Doors, MemDoors};
use link_source::Links;
use load_setup::{SoundDisk, SoundLinks, UnseenSink};
use option_set::Options;
use payload_repair::RepairWatch;
use run_lifecycle::{
    begun_runs_are_stopped, is_console_on, runs_end_as_shown, runs_print_one_text,
    runs_show_their_disk, unbegun_runs_only_read,
};
use run_report::RunEnding;
use served_runs::{
    linked_runs_have_histories, linked_runs_leave_other_files, linked_runs_survive_crashes,
    runs_complete_uris, runs_complete_what_is_served, runs_show_their_links,
    runs_show_why_unfinished, runs_spare_serving_mirrors,
};
use shared_run::FinishedRun;
use std::alloc::Global;
use std::sync::Wait;
use std::sync::atomic::AtomicBool;
use std::thread::Threads;

fn is_alone(globals: &Options, links: usize) -> bool
    ensures { result ≡ is_alone_by links globals.now }
{
    links == 1 && !is_console_on(globals)
}

// The downloads that the line asks for, over the one link or over all of them.
fn download<
    R: Threads + Wait + Sync,
    D: Disk + Send,
    L: Links + Send,
    A: Doors + Send,
    K: Clock + Send,
    O: Sink,
>(
    rt: &R,
    alloc: Global,
    words: &[String],
    line: &CommandLine,
    disk: D,
    over: &AtomicBool,
    links: Vec<(L, K)>,
    doors: Vec<(A, K)>,
    gids: u64,
    out: &mut O,
) -> FinishedRun<D, L, K, A>
    requires line { IsLine (map string_bytes words.now) line.now }
    requires links { (1 ≤ length links.items) × (length links.items ≤ MAX_LINKS) }
    requires doors { length doors.items ≤ MAX_DOORS }
    ensures { WentForDownloads D.Disk L.Links K.Clock A.Doors O.Sink
        (one_run (map string_bytes words.now) gids disk links.items doors.items out.old result out.new) }
{
    if is_alone(&line.globals, links.len()) {
        alone(alloc, words, disk, links, doors, gids, out)
    } else {
        together(rt, alloc, words, disk, over, links, doors, gids, out)
    }
}

// What the words ask for.
fn by_meaning<
    R: Threads + Wait + Sync,
    D: Disk + Send,
    L: Links + Send,
    A: Doors + Send,
    K: Clock + Send,
    O: Sink,
    W: RepairWatch,
>(
    rt: &R,
    alloc: Global,
    words: &[String],
    disk: D,
    over: &AtomicBool,
    links: Vec<(L, K)>,
    doors: Vec<(A, K)>,
    gids: u64,
    out: &mut O,
    watch: &mut W,
) -> FinishedRun<D, L, K, A>
    requires links { (1 ≤ length links.items) × (length links.items ≤ MAX_LINKS) }
    requires doors { length doors.items ≤ MAX_DOORS }
    ensures { WentByMeaning D.Disk L.Links K.Clock A.Doors O.Sink
        (one_run (map string_bytes words.now) gids disk links.items doors.items out.old result out.new)
        ⟦<SoundDisk as Disk>⟧ ⟦<SoundLinks as Links>⟧ ⟦<MemClock as Clock>⟧ ⟦<MemDoors as Doors>⟧
        ⟦<UnseenSink as Sink>⟧ }
{
    match meaning_of(alloc, words) {
        Ok(Some(Meaning::Load(n))) => load(rt, alloc, n, disk, links, doors, out),
        Ok(Some(Meaning::Download(line))) => download(
            rt, alloc, words, &line, disk, over, links, doors, gids, out,
        ),
        Ok(Some(Meaning::Serve(line))) => serve(rt, alloc, line, disk, links, doors, out),
        Ok(Some(Meaning::Check(line))) => {
            check(rt, alloc, &line, disk, links, doors, out, watch)
        }
        Ok(None) => refused(alloc, RunEnding::NoMeaning, disk, links, doors, out),
        Err(_) => refused(alloc, RunEnding::NoMemory, disk, links, doors, out),
    }
}

/// The run of these words, which stand behind the program's name: of downloads, of a load, of a folder that is served over
/// HTTP, or of a check of a version 2 payload.
///
/// For every interleaving of connection workers and console sessions the run's one history is legal: each reply is the queue
/// machine's at its place, each block is counted once, and Complete is told of a listed download only when every wanted piece
/// on disk has its listed digest; and whatever a crash at any moment leaves, resume calls verified only matching pieces, among
/// them those of every acknowledged save.
///
/// Over one link without a console it works on the calling thread, and comes to an end of itself where its link does. Otherwise
/// each link has a worker, in a thread of its own where one can be started, and, where the words turn the console on, each door
/// a session, numbered from 1 on; else doors aren't used. A load has a disk and links of its own in memory. A folder is served
/// at all doors until no client comes any more. A check hashes in threads of its own, and tells `watch` what it finds. `gids` is
/// what the ids of downloads are made from. `over` is set once a worker's work ended, or a door found the run finished: from
/// then on nothing is waited for, so an edge may fail a call that would still wait.
///
/// What a disk, a link, a door, a clock or the output tells is trusted, and that nobody else writes to the files of a download.
pub fn run<
    R: Threads + Wait + Sync,
    D: Disk + Send,
    L: Links + Send,
    A: Doors + Send,
    K: Clock + Send,
    O: Sink,
    W: RepairWatch,
>(
    rt: &R,
    alloc: Global,
    words: &[String],
    disk: D,
    over: &AtomicBool,
    links: Vec<(L, K)>,
    doors: Vec<(A, K)>,
    gids: u64,
    out: &mut O,
    watch: &mut W,
) -> FinishedRun<D, L, K, A>
    requires links { (1 ≤ length links.items) × (length links.items ≤ MAX_LINKS) }
    requires doors { length doors.items ≤ MAX_DOORS }
    // The run of a line of downloads began, or it is printed why not and nothing was touched; or the words ask for a load, a
    // folder or a check.
    ensures began { BeganOrNot (one_run (map string_bytes words.now) gids disk links.items
        doors.items out.old result out.new) D.Disk O.Sink }
    // Words without a meaning, and a named file that is refused, end it so.
    ensures refuses { RefusesFirst D.Disk O.Sink (one_run (map string_bytes words.now) gids disk
        links.items doors.items out.old result out.new) }
    // How it ended is what its history says.
    ensures ending { HasEnding D.Disk O.Sink (one_run (map string_bytes words.now) gids disk
        links.items doors.items out.old result out.new) }
    // The summary is printed, and nothing else.
    ensures output { HasOutput D.Disk O.Sink (one_run (map string_bytes words.now) gids disk
        links.items doors.items out.old result out.new) }
    // Where it is unfinished it was told to shut down, or a worker was cut short, or only paused downloads were left.
    ensures unfinished { TellsWhyUnfinished L.Links (one_run (map string_bytes words.now) gids disk
        links.items doors.items out.old result out.new) }
    // One legal history, which begins with the call of the line and leaves nothing unsaved.
    ensures history { HasHistory D.Disk (one_run (map string_bytes words.now) gids disk links.items
        doors.items out.old result out.new) }
    // What it tells of the disk was so, and files that weren't asked for are as they were.
    ensures disk { TellsDisk D.Disk (one_run (map string_bytes words.now) gids disk links.items
        doors.items out.old result out.new) }
    ensures others { LeavesOthers D.Disk (one_run (map string_bytes words.now) gids disk links.items
        doors.items out.old result out.new) }
    // What it tells of a claim's loss or length came over the link of the claim's worker.
    ensures links { TellsLinks L.Links (one_run (map string_bytes words.now) gids disk links.items
        doors.items out.old result out.new) }
    // A mirror that serves a payload is held to account for faults of links alone.
    ensures marks { SparesMirrors L.Links (one_run (map string_bytes words.now) gids disk
        links.items doors.items out.old result out.new) D.Disk }
    // What is served comes: a run whose links lead to all of a metainfo file's payload is done, and its pieces stand on the
    // disk, unless it was cut short.
    ensures completes { Completes D.Disk L.Links O.Sink (one_run (map string_bytes words.now) gids
        disk links.items doors.items out.old result out.new) }
    // So it does without a metainfo file, where all mirrors lead alike to one resource and no file stands in its folder; and
    // then its file has just the resource's bytes.
    ensures completes_uris { CompletesMirrors D.Disk L.Links O.Sink (one_run
        (map string_bytes words.now) gids disk links.items doors.items out.old result out.new) }
    // Over one link so it does where each piece has a mirror that holds it, with fewer bad answers left than tries.
    ensures completes_pieces { CompletesByPieces D.Disk L.Links O.Sink (one_run
        (map string_bytes words.now) gids disk links.items doors.items out.old result out.new) }
    // Over one link it has few claims, events and turns, by its download's blocks, pieces, mirrors and tries.
    ensures bounds { BoundsAlone D.Disk L.Links O.Sink (one_run (map string_bytes words.now) gids
        disk links.items doors.items out.old result out.new) }
    // What is complete has its digests, and nothing that was promised is lost by a crash.
    ensures survives { Survives D.Disk (one_run (map string_bytes words.now) gids disk links.items
        doors.items out.old result out.new) }
    // Nothing else is touched, and each link keeps its place.
    ensures untouched { LeavesUntouched L.Links (one_run (map string_bytes words.now) gids disk
        links.items doors.items out.old result out.new) D.Disk }
    // Each door was served by the session of its number, and what its clients were told is of the one history, all calls of
    // which are theirs or the line's own; or none was.
    ensures doors { TellsDoors A.Doors K.Clock (one_run (map string_bytes words.now) gids disk
        links.items doors.items out.old result out.new) }
    // Words that ask for a load have it run, over a disk and links of its own, and its line printed.
    ensures load { RunsLoads ⟦<SoundDisk as Disk>⟧ ⟦<SoundLinks as Links>⟧ ⟦<MemClock as Clock>⟧
        ⟦<MemDoors as Doors>⟧ ⟦<UnseenSink as Sink>⟧ O.Sink (one_run (map string_bytes words.now) gids
        disk links.items doors.items out.old result out.new) }
    // Words that ask for a folder have it served: all that is sent at its doors are replies of the files that it had, or fronts
    // of them where a call failed, and nothing in it is changed.
    ensures serves { ServesFolders D.Disk A.Doors (one_run (map string_bytes words.now) gids disk links.items
        doors.items out.old result out.new) }
    // Words that ask for a check have the payload checked, and repaired from the copy: what was right stays right, and just the
    // blocks that differ are written.
    ensures checks { ChecksPayloads D.Disk O.Sink (one_run (map string_bytes words.now) gids disk links.items
        doors.items out.old result out.new) }
    // What was done over the links and at the doors, from the words to the summary.
    ensures does { Does D.Disk L.Links K.Clock A.Doors O.Sink (one_run (map string_bytes words.now)
        gids disk links.items doors.items out.old result out.new) }
{
    lines_are_one();
    load_words_are_no_line();
    begun_runs_are_stopped::<D, O>();
    runs_end_as_shown::<D, O>();
    runs_print_one_text::<D, O>();
    linked_runs_have_histories::<D, L, K, O>();
    runs_show_their_disk::<D, O>();
    linked_runs_leave_other_files::<D, L, K, O>();
    runs_show_their_links::<D, L, K, O>();
    runs_show_why_unfinished::<D, L, K, O>();
    runs_spare_serving_mirrors::<D, L, K, O>();
    runs_complete_what_is_served::<D, L, K, O>();
    runs_complete_uris::<D, L, K, O>();
    linked_runs_survive_crashes::<D, L, K, O>();
    unbegun_runs_only_read::<D, O>();
    by_meaning(rt, alloc, words, disk, over, links, doors, gids, out, watch)
}
