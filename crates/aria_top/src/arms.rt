// The runs that words may ask for.
ghost use Rattle.std.specs.Prelude.{◌≡◌, ◌≤◌, ℕ, List, false, true, length, map, option_map, string_bytes};
ghost use Rattle.aria_top.specs.Alone.{is_alone};
ghost use Rattle.aria_top.specs.Loads.{RanLoad};
ghost use Rattle.aria_top.specs.OneRun.{one_run};
ghost use Rattle.aria_top.specs.Origins.{RanOrigin};
ghost use Rattle.aria_top.specs.PayloadChecks.{RanCheck};
ghost use Rattle.aria_top.specs.Went.{WasRefused, WentAlone, WentTogether, WhyRefused};
ghost use Rattle.command_line.specs.Lines.{IsLine};
ghost use Rattle.command_line.specs.declared.line.CommandLine.{CommandLine};
ghost use Rattle.shared_run.specs.declared.limits.TheConstants.{MAX_DOORS, MAX_LINKS};

use check_run::check_payload;
use command_line::lines_are_one;
use command_meanings::{CheckLine, ServeLine};
use conn_worker::turns_bring_what_came;
use console_session::{calls_stand_where_replied, replies_are_of_the_history};
use dl_clock::{Clock, MemClock};
use dl_disk::Disk;
use dl_kinds::Sink;
use door_source::{Doors, MemDoors};
use link_source::Links;
use load_setup::{SoundDisk, SoundLinks, UnseenSink};
use machine_core::Journal;
use origin_run::{ServedFolder, serve_folder};
use payload_repair::RepairWatch;
use run_lifecycle::{Finished, refuse};
use run_report::RunEnding;
use self_load::{Loaded, run_load};
use shared_run::{FinishedRun, run_shared};
use solo_run::run_alone;
use std::alloc::Global;
use std::sync::Wait;
use std::sync::atomic::AtomicBool;
use std::thread::Threads;

/// Tells why nothing is run, and gives all back as it was.
pub(crate) fn refused<D: Disk, L: Links, K: Clock, A: Doors, O: Sink>(
    alloc: Global,
    refusal: RunEnding,
    disk: D,
    links: Vec<(L, K)>,
    doors: Vec<(A, K)>,
    out: &mut O,
) -> FinishedRun<D, L, K, A>
    ensures { (words : List (List ℕ)) (gids : ℕ) → WhyRefused words refusal → WasRefused O.Sink
        (one_run words gids disk links.items doors.items out.old result out.new) }
{
    FinishedRun {
        ending: refuse(alloc, refusal, out),
        disk,
        links,
        doors,
        transcripts: Vec::new(alloc),
        journal: Journal::new(alloc),
    }
}

/// The run over the only link, where the words turn no console on.
pub(crate) fn alone<D: Disk, L: Links, K: Clock, A: Doors, O: Sink>(
    alloc: Global,
    words: &[String],
    disk: D,
    links: Vec<(L, K)>,
    doors: Vec<(A, K)>,
    gids: u64,
    out: &mut O,
) -> FinishedRun<D, L, K, A>
    requires { 1 ≤ length links.items }
    ensures { (line : CommandLine) → IsLine (map string_bytes words.now) line
        → is_alone links.items line ≡ true
        → WentAlone D.Disk L.Links K.Clock A.Doors O.Sink (one_run (map string_bytes words.now) gids
        disk links.items doors.items out.old result out.new) line }
{
    lines_are_one();
    turns_bring_what_came();
    replies_are_of_the_history();
    calls_stand_where_replied();
    let Finished {
        ending,
        disk,
        links,
        doors,
        journal,
    } = run_alone(alloc, words, disk, links, doors, gids, out);
    FinishedRun {
        ending,
        disk,
        links,
        doors,
        transcripts: Vec::new(alloc),
        journal,
    }
}

/// The run over all links at once, and at the doors where the words turn the console on.
pub(crate) fn together<
    R: Threads + Wait + Sync,
    D: Disk + Send,
    L: Links + Send,
    A: Doors + Send,
    K: Clock + Send,
    O: Sink,
>(
    rt: &R,
    alloc: Global,
    words: &[String],
    disk: D,
    over: &AtomicBool,
    links: Vec<(L, K)>,
    doors: Vec<(A, K)>,
    gids: u64,
    out: &mut O,
) -> FinishedRun<D, L, K, A>
    requires links { (1 ≤ length links.items) × (length links.items ≤ MAX_LINKS) }
    requires doors { length doors.items ≤ MAX_DOORS }
    ensures { (line : CommandLine) → IsLine (map string_bytes words.now) line
        → is_alone links.items line ≡ false
        → WentTogether D.Disk L.Links K.Clock A.Doors O.Sink (one_run (map string_bytes words.now)
        gids disk links.items doors.items out.old result out.new) line }
{
    run_shared(rt, alloc, words, disk, over, links, doors, gids, out)
}

/// The run of the load of this number. The disk, the links and the doors aren't used.
pub(crate) fn load<R: Threads + Wait + Sync, D: Disk, L: Links, K: Clock, A: Doors, O: Sink>(
    rt: &R,
    alloc: Global,
    n: u64,
    disk: D,
    links: Vec<(L, K)>,
    doors: Vec<(A, K)>,
    out: &mut O,
) -> FinishedRun<D, L, K, A>
    ensures { (words : List (List ℕ)) (gids : ℕ) → RanLoad ⟦<SoundDisk as Disk>⟧
        ⟦<SoundLinks as Links>⟧ ⟦<MemClock as Clock>⟧ ⟦<MemDoors as Doors>⟧ ⟦<UnseenSink as Sink>⟧
        O.Sink (one_run words gids disk links.items doors.items out.old result out.new) n }
{
    let Loaded {
        ending,
        journal,
        transcripts,
    } = run_load(rt, alloc, n, out);
    FinishedRun {
        ending,
        disk,
        links,
        doors,
        transcripts,
        journal,
    }
}

/// The folder is served at all doors. Neither the links nor the output are used.
pub(crate) fn serve<
    R: Threads + Wait + Sync,
    D: Disk + Send,
    L: Links,
    A: Doors + Send,
    K: Clock + Send,
    O: Sink,
>(
    rt: &R,
    alloc: Global,
    line: ServeLine,
    disk: D,
    links: Vec<(L, K)>,
    doors: Vec<(A, K)>,
    out: &O,
) -> FinishedRun<D, L, K, A>
    requires { length doors.items ≤ MAX_DOORS }
    ensures { (words : List (List ℕ)) (gids : ℕ) → RanOrigin D.Disk A.Doors
        (one_run words gids disk links.items doors.items out.now result out.now) line.dir }
{
    let ServeLine { dir, port: _port } = line;
    let ServedFolder {
        disk,
        doors,
        transcripts,
        ending,
    } = serve_folder(rt, alloc, dir, disk, doors);
    FinishedRun {
        ending,
        disk,
        links,
        doors,
        transcripts,
        journal: Journal::new(alloc),
    }
}

fn copy_of(line: &CheckLine) -> Option<&str>
    ensures { option_map (λ copy. copy.now) result ≡ line.now.copy }
{
    match &line.copy {
        Some(copy) => Some(copy.as_str()),
        None => None,
    }
}

/// The payload is checked, and repaired from a copy. The links and the doors aren't used.
pub(crate) fn check<
    R: Threads + Wait + Sync,
    D: Disk + Send,
    L: Links,
    A: Doors,
    K: Clock,
    O: Sink,
    W: RepairWatch,
>(
    rt: &R,
    alloc: Global,
    line: &CheckLine,
    disk: D,
    links: Vec<(L, K)>,
    doors: Vec<(A, K)>,
    out: &mut O,
    watch: &mut W,
) -> FinishedRun<D, L, K, A>
    ensures { (words : List (List ℕ)) (gids : ℕ) → RanCheck D.Disk O.Sink
        (one_run words gids disk links.items doors.items out.old result out.new)
        line.now.file line.now.dir line.now.copy }
{
    let mut checked = disk;
    let (file, dir) = (line.file.as_str(), line.dir.as_str());
    let ending = check_payload(
        rt,
        alloc,
        &mut checked,
        file,
        dir,
        copy_of(line),
        out,
        watch,
    );
    FinishedRun {
        ending,
        disk: checked,
        links,
        doors,
        transcripts: Vec::new(alloc),
        journal: Journal::new(alloc),
    }
}
