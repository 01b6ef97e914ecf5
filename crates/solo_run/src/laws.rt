// What follows of runs over one link. Laws do nothing when they run.
ghost use Rattle.solo_run.specs.Bounds.{BoundsInNumbers};
ghost use Rattle.solo_run.specs.BoundedRuns.{RunsOverOneAreBounded};
ghost use Rattle.solo_run.specs.Pieces.{RunsCompletePieces};

use blameless_mirrors::lone_downloads_end_well;
use command_line::lines_are_one;
use dl_disk::Disk;
use dl_kinds::Sink;
use engine_turns::{active_downloads_are_going, turns_tell_runs};
use link_source::Links;
use machine_core::{downloads_are_legal, downloads_stay};
use mark_costs::served_downloads_only_complete;
use run_lifecycle::{disks_keep_runs, runs_end_as_shown, runs_show_their_disk};
use served_runs::{finished_runs_are_done, runs_show_their_links};
use stored_run::runs_follow;
use work_bounds::{claims_are_bounded, histories_are_bounded, pieces_are_cleared_seldom};
use worker_turns::solo_runs_find_offers;

/// What is served piece by piece comes: a run over one link is done, if each piece that its options choose has a mirror
/// there that holds it, with fewer bad answers left than tries, unless it was cut short; and such pieces stand on its disk.
pub(crate) fn runs_complete_served_pieces<D: Disk, L: Links, K, O: Sink>()
    ensures { RunsCompletePieces K D.Disk O.Sink L.Links }
{
    served_downloads_only_complete::<D>();
    runs_show_their_links::<D, L, K, O>();
    finished_runs_are_done::<D, O>();
    lone_downloads_end_well();
    lines_are_one();
    disks_keep_runs::<D>();
    downloads_stay();
    runs_end_as_shown::<D, O>();
    runs_follow();
    runs_show_their_disk::<D, O>();
    turns_tell_runs();
}

/// In a run over one link no two claims stand at once, and each save has something new to list. So
/// its download has few claims and events, and its worker takes few turns; and without a console it
/// is left unfinished only where the worker was cut short.
pub(crate) fn runs_over_one_are_bounded<D: Disk, L: Links, K, O: Sink>()
    ensures { RunsOverOneAreBounded K D.Disk O.Sink L.Links }
{
    lines_are_one();
    downloads_stay();
    downloads_are_legal();
    active_downloads_are_going();
    claims_are_bounded();
    histories_are_bounded();
    pieces_are_cleared_seldom();
    runs_follow();
    solo_runs_find_offers::<D>();
    turns_tell_runs();
    finished_runs_are_done::<D, O>();
}

/// The bounds of claims, events and clears in numbers. It does nothing when it runs.
pub fn bounds_are_told()
    ensures { BoundsInNumbers }
{}
