// A run over one link.
ghost use Rattle.std.specs.Prelude.{◌≡◌, ◌≤◌, ℕ, true, IsTrue, length, map, string_bytes, take};
ghost use Rattle.served_runs.specs.Completes.{CompletesServed};
ghost use Rattle.served_runs.specs.CompletesUris.{CompletesUris};
ghost use Rattle.served_runs.specs.Over.{IsRunOver};
ghost use Rattle.served_runs.specs.Served.{SparesServing};
ghost use Rattle.served_runs.specs.Unfinished.{ShowsUnfinished};
ghost use Rattle.run_lifecycle.specs.DiskCauses.{LeavesOtherFiles, ShowsDisk};
ghost use Rattle.run_lifecycle.specs.Endings.{EndsAsShown};
ghost use Rattle.run_lifecycle.specs.Histories.{IsHistory};
ghost use Rattle.run_lifecycle.specs.Printing.{PrintsText};
ghost use Rattle.run_lifecycle.specs.Results.{ended_of};
ghost use Rattle.run_lifecycle.specs.Survivals.{SurvivesRun};
ghost use Rattle.solo_run.specs.Bounded.{BoundsFirst};
ghost use Rattle.solo_run.specs.Headline.{DoesAlone};
ghost use Rattle.solo_run.specs.LinkCauses.{ShowsFirstLink};
ghost use Rattle.solo_run.specs.Pieces.{CompletesPieces};
ghost use Rattle.solo_run.specs.Runs.{TurnNoConsoleOn};
ghost use Rattle.solo_run.specs.Untouched.{LeavesUnused};

use crate::laws::{runs_complete_served_pieces, runs_over_one_are_bounded};
use crate::over::run_over;
use dl_clock::Clock;
use dl_disk::Disk;
use dl_kinds::Sink;
use link_source::Links;
use run_lifecycle::{
    Ended, Finished, begun_runs_are_stopped, runs_end_as_shown, runs_print_one_text,
    runs_show_their_disk, unbegun_runs_only_read,
};
use served_runs::{
    linked_runs_have_histories, linked_runs_leave_other_files, linked_runs_survive_crashes,
    runs_complete_uris, runs_complete_what_is_served, runs_show_their_links,
    runs_show_why_unfinished, runs_spare_serving_mirrors,
};
use std::alloc::Global;

/// The run of these words, which stand behind the program's name, over the first link. Doors aren't used. `gids` is what the ids
/// of downloads are made from.
pub fn run_alone<D: Disk, L: Links, K: Clock, A, O: Sink>(
    alloc: Global,
    words: &[String],
    disk: D,
    links: Vec<(L, K)>,
    doors: Vec<(A, K)>,
    gids: u64,
    out: &mut O,
) -> Finished<D, L, K, A>
    requires { 1 ≤ length links.items }
    // What was done over the first link, by its clock, from the words to the summary.
    ensures does { DoesAlone D.Disk L.Links K.Clock O.Sink (map string_bytes words.now) gids disk
        links.items out.old result out.new }
    // How it ended is shown.
    ensures ending { EndsAsShown D.Disk O.Sink (map string_bytes words.now) gids 0 disk
        out.old (ended_of result) out.new }
    // Why it didn't begin is printed, or the summary, and nothing else.
    ensures output { PrintsText D.Disk O.Sink (map string_bytes words.now) gids 0 disk
        out.old (ended_of result) out.new }
    // Where it is unfinished its worker met a full journal, or took as many turns as one may, or only paused downloads were left.
    ensures unfinished { ShowsUnfinished true L.Links (map string_bytes words.now) gids 0
        (take 1 links.items) (take 1 result.links.items) (ended_of result) }
    // One legal history, which begins with the call of the line and leaves nothing unsaved.
    ensures history { IsHistory D.Disk (map string_bytes words.now) gids 0 disk (ended_of result) }
    // What it tells of the disk was so, and files that weren't asked for are as they were.
    ensures disk { ShowsDisk D.Disk (map string_bytes words.now) gids 0 disk (ended_of result) }
    ensures others { IsTrue D.tells
        → LeavesOtherFiles D.Disk (map string_bytes words.now) gids 0 disk (ended_of result) }
    // What it tells of the link came over it.
    ensures link { ShowsFirstLink L.Links (map string_bytes words.now) gids
        result.journal.events.items links.items result.links.items }
    // A mirror that serves a payload over the first link is held to account for faults of the link alone.
    ensures marks { IsTrue L.tells → SparesServing D.Disk L.Links (map string_bytes words.now) gids
        0 (take 1 links.items) (take 1 result.links.items) (ended_of result) }
    // What is served comes: a run whose link leads to all of a metainfo file's payload is done, and its pieces stand on the
    // disk, unless it was cut short.
    ensures completes { IsTrue D.tells → IsTrue L.tells → CompletesServed true D.Disk L.Links
        O.Sink (map string_bytes words.now) gids 0 disk (take 1 links.items) out.old (ended_of result)
        (take 1 result.links.items) out.new }
    // So it is where each piece has a mirror that holds it, with fewer bad answers left than tries.
    ensures completes_pieces { IsTrue D.tells → IsTrue L.tells → CompletesPieces D.Disk L.Links
        O.Sink (map string_bytes words.now) gids 0 disk (take 1 links.items) out.old (ended_of result)
        (take 1 result.links.items) out.new }
    // So it is without a metainfo file, where all mirrors lead alike to one resource and no file stands in its folder; and
    // then its file has just the resource's bytes.
    ensures completes_uris { IsTrue D.tells → IsTrue L.tells → CompletesUris true D.Disk L.Links
        O.Sink (map string_bytes words.now) gids 0 disk (take 1 links.items) out.old (ended_of result)
        (take 1 result.links.items) out.new }
    // It has few claims and events, by its download's blocks, pieces, mirrors and tries; and without a
    // console its worker takes few turns, by the events and the bytes that come over the link.
    ensures bounds { BoundsFirst D.Disk O.Sink L.Links (map string_bytes words.now) gids disk
        (take 1 links.items) out.old (ended_of result) (take 1 result.links.items) out.new }
    // What is complete has its digests, and nothing that was promised is lost by a crash.
    ensures survives { IsTrue D.tells
        → SurvivesRun D.Disk (map string_bytes words.now) gids 0 disk (ended_of result) }
    // With any number of doors it is a run of its frame, whose turns between the line's call and the stop are the worker's.
    ensures over { TurnNoConsoleOn (map string_bytes words.now) → (doors : ℕ) → IsRunOver D.Disk
        O.Sink true L.Links (map string_bytes words.now) gids doors disk (take 1 links.items) out.old
        (ended_of result) (take 1 result.links.items) out.new }
    // Nothing else is touched.
    ensures untouched { LeavesUnused D.Disk disk links.items (ended_of result) result.links.items }
    ensures doors { result.doors ≡ doors }
{
    begun_runs_are_stopped::<D, O>();
    runs_end_as_shown::<D, O>();
    runs_print_one_text::<D, O>();
    linked_runs_have_histories::<D, L, K, O>();
    runs_show_their_disk::<D, O>();
    linked_runs_leave_other_files::<D, L, K, O>();
    runs_show_their_links::<D, L, K, O>();
    runs_show_why_unfinished::<D, L, K, O>();
    runs_spare_serving_mirrors::<D, L, K, O>();
    runs_complete_what_is_served::<D, L, K, O>();
    runs_complete_served_pieces::<D, L, K, O>();
    runs_complete_uris::<D, L, K, O>();
    runs_over_one_are_bounded::<D, L, K, O>();
    linked_runs_survive_crashes::<D, L, K, O>();
    unbegun_runs_only_read::<D, O>();
    let mut links = links;
    let (link, clock) = &mut links[0];
    let Ended {
        ending,
        disk,
        journal,
    } = run_over(alloc, words, disk, link, clock, gids, out);
    Finished {
        ending,
        disk,
        links,
        doors,
        journal,
    }
}
