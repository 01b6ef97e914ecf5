// What follows of runs over links. Laws do nothing when they run.
ghost use Rattle.served_runs.specs.OverLaws.{LinkedHaveHistories, LinkedLeaveOtherFiles, LinkedSurvive, RunsCompleteServed, RunsCompleteUris, RunsShowLinks, RunsShowUnfinished, RunsSpareServing};

use crate::laws::{brought_runs_end_well, finished_runs_are_done};
use crate::serving::{runs_are_faithful, runs_tell_right_lengths};
use blameless_mirrors::{
    faithful_mirrors_are_blameless, lone_downloads_end_well, unlisted_complete_downloads_are_whole,
    unlisted_downloads_only_complete,
};
use command_line::lines_are_one;
use dl_disk::Disk;
use dl_kinds::Sink;
use engine_turns::turns_tell_runs;
use link_source::Links;
use machine_core::downloads_stay;
use run_lifecycle::{
    disks_keep_runs, losses_come_of_workers, runs_end_as_shown, runs_have_whole_histories,
    runs_leave_other_files, runs_show_their_disk, runs_survive_crashes, workers_show_their_link,
};
use stored_run::runs_follow;

/// What the history of a run over links tells of a claim's loss or length came over the link of the claim's worker.
pub fn runs_show_their_links<D: Disk, L: Links, K, O: Sink>()
    ensures { RunsShowLinks K D.Disk O.Sink L.Links }
{
    losses_come_of_workers::<D, O>();
    workers_show_their_link::<D, L, O>();
}

/// A mirror that serves a payload over the links of a run is held to account for faults of links alone.
pub fn runs_spare_serving_mirrors<D: Disk, L: Links, K, O: Sink>()
    ensures { RunsSpareServing K D.Disk O.Sink L.Links }
{
    runs_are_faithful::<D, L, O>();
    brought_runs_end_well::<D, O>();
    faithful_mirrors_are_blameless::<D>();
}

/// What is served comes: a run whose links lead to each file of which a piece of a metainfo file's payload that is to come has bytes is
/// done, unless it was cut short, and such pieces stand on its disk.
pub fn runs_complete_what_is_served<D: Disk, L: Links, K, O: Sink>()
    ensures { RunsCompleteServed K D.Disk O.Sink L.Links }
{
    runs_show_their_links::<D, L, K, O>();
    runs_are_faithful::<D, L, O>();
    brought_runs_end_well::<D, O>();
    finished_runs_are_done::<D, O>();
    lone_downloads_end_well();
    lines_are_one();
    disks_keep_runs::<D>();
    downloads_stay();
    runs_end_as_shown::<D, O>();
    runs_follow();
    turns_tell_runs();
}

/// .. also without a metainfo file and a checksum, where all mirrors lead alike to one resource and nothing stands in its place; and
/// then its file has just the resource's bytes.
pub fn runs_complete_uris<D: Disk, L: Links, K, O: Sink>()
    ensures { RunsCompleteUris K D.Disk O.Sink L.Links }
{
    runs_show_their_links::<D, L, K, O>();
    runs_are_faithful::<D, L, O>();
    runs_tell_right_lengths::<D, L, O>();
    unlisted_downloads_only_complete::<D>();
    unlisted_complete_downloads_are_whole::<D>();
    finished_runs_are_done::<D, O>();
    lines_are_one();
    downloads_stay();
    runs_end_as_shown::<D, O>();
    runs_show_their_disk::<D, O>();
    turns_tell_runs();
}

/// A run that is left unfinished was told to shut down, or a worker was cut short, or only paused downloads were left.
pub fn runs_show_why_unfinished<D: Disk, L: Links, K, O: Sink>()
    ensures { RunsShowUnfinished K D.Disk O.Sink L.Links }
{
    turns_tell_runs();
}

/// The history of a run over links begins with the call of its line, leaves nothing unsaved, and has its stop behind all doors'
/// leaves.
pub fn linked_runs_have_histories<D: Disk, L: Links, K, O: Sink>()
    ensures { LinkedHaveHistories K D.Disk O.Sink L.Links }
{
    runs_have_whole_histories::<D, O>();
    turns_tell_runs();
}

/// What a run over links told complete has its digests, and nothing that it promised is lost by a crash.
pub fn linked_runs_survive_crashes<D: Disk, L: Links, K, O: Sink>()
    ensures { LinkedSurvive K D.Disk O.Sink L.Links }
{
    runs_survive_crashes::<D, O>();
}

/// A run over links leaves the files of all wants as they are but those that it opened.
pub fn linked_runs_leave_other_files<D: Disk, L: Links, K, O: Sink>()
    ensures { LinkedLeaveOtherFiles K D.Disk O.Sink L.Links }
{
    runs_leave_other_files::<D, O>();
}
