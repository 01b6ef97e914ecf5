// What follows from all that a run did. Laws do nothing when they run.
ghost use Rattle.run_lifecycle.specs.FrameLaws.{BegunAreStopped, RunsEndAsShown, RunsHaveHistories, RunsLeaveOtherFiles, RunsPrintText, RunsShowDisk, RunsSurvive, UnbegunOnlyRead};
ghost use Rattle.run_lifecycle.specs.Promises.{CompletedAreRight, CrashesKeepRuns};
ghost use Rattle.run_lifecycle.specs.LinkLaws.{LengthsComeOfWorkers, LossesComeOfWorkers, WorkersShowLengths, WorkersShowLosses};

use command_line::lines_are_one;
use conn_worker::turns_bring_what_came;
use dl_disk::Disk;
use dl_kinds::Sink;
use engine_turns::{downloads_go_on_once, turns_tell_runs};
use link_source::Links;
use machine_core::{downloads_stay, wants_stay};
use stored_run::runs_follow;

/// A run that began was stopped, so its history isn't empty.
pub fn begun_runs_are_stopped<D: Disk, O: Sink>()
    ensures { BegunAreStopped D.Disk O.Sink }
{
    turns_tell_runs();
}

/// The words, the named file, the history or a count of faults show how a run ended, but for want of memory.
pub fn runs_end_as_shown<D: Disk, O: Sink>()
    ensures { RunsEndAsShown D.Disk O.Sink }
{
    lines_are_one();
}

/// A run prints why it didn't begin, or the summary of its history, and nothing else.
pub fn runs_print_one_text<D: Disk, O: Sink>()
    ensures { RunsPrintText D.Disk O.Sink }
{}

/// The history of a run whose doors leave before its stop begins with the call of its line, and leaves nothing unsaved.
pub fn runs_have_whole_histories<D: Disk, O: Sink>()
    ensures { RunsHaveHistories D.Disk O.Sink }
{
    downloads_go_on_once();
    downloads_stay();
    turns_tell_runs();
}

/// What a run told complete has its digests, and nothing that it promised is lost by a crash.
pub fn runs_survive_crashes<D: Disk, O: Sink>()
    ensures { RunsSurvive D.Disk O.Sink }
{
    disks_keep_runs::<D>();
}

/// What the history tells of the disk was so at a moment of the run.
pub fn runs_show_their_disk<D: Disk, O: Sink>()
    ensures { RunsShowDisk D.Disk O.Sink }
{
    turns_tell_runs();
}

/// A run leaves the files of all wants as they are but those that it opened.
pub fn runs_leave_other_files<D: Disk, O: Sink>()
    ensures { RunsLeaveOtherFiles D.Disk O.Sink }
{
    wants_stay();
}

/// A run that ended before it began read the disk at most.
pub fn unbegun_runs_only_read<D: Disk, O: Sink>()
    ensures { UnbegunOnlyRead D.Disk O.Sink }
{
    begun_runs_are_stopped::<D, O>();
    runs_end_as_shown::<D, O>();
}

/// Each loss and each length in the history of a run came of a turn that ended a claim, between the line's own call and the last
/// stop.
pub fn losses_come_of_workers<D: Disk, O: Sink>()
    ensures lost { LossesComeOfWorkers D.Disk O.Sink }
    ensures sized { LengthsComeOfWorkers D.Disk O.Sink }
{}

/// What the turns of a worker brought of losses and lengths came over its link, for claims of its own.
pub fn workers_show_their_link<D: Disk, L: Links, O: Sink>()
    ensures lost { WorkersShowLosses D.Disk O.Sink L.Links }
    ensures sized { WorkersShowLengths D.Disk O.Sink L.Links }
{
    downloads_stay();
    turns_bring_what_came();
}

/// Where all images of the disk that a run was given were sound for what it opens, each is so at any moment of the run, and
/// gives what its saves promised, or the payload stands whole; and what is told complete has its listed digests. It does
/// nothing when it runs.
pub fn disks_keep_runs<D: Disk>()
    ensures complete { CompletedAreRight D.state }
    ensures crash { CrashesKeepRuns D.state }
{
    runs_follow();
}
