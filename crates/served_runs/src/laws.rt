// How runs end to which a mirror brings a payload's own bytes.
ghost use Rattle.served_runs.specs.Ends.{BroughtRunsEndWell, FinishedAreDone, RunsAreTold};

use blameless_mirrors::brought_downloads_only_complete;
use dl_disk::Disk;
use dl_kinds::Sink;
use run_lifecycle::runs_show_their_disk;

/// The turns of a run came one after the other, each as its disk tells; and where a mirror brings the payload of its only
/// download, and neither the mirror's links nor the disk fail, no download ends but by being complete, and the run is done or
/// unfinished, or memory was wanting, or the output failed. It does nothing when it runs.
pub fn brought_runs_end_well<D: Disk, O: Sink>()
    ensures told { RunsAreTold D.Disk O.Sink }
    ensures ends { BroughtRunsEndWell D.Disk O.Sink }
{
    brought_downloads_only_complete::<D>();
    runs_show_their_disk::<D, O>();
}

/// A run with one call, that of its line, of which a turn was answered that nothing is left to do, before any stop, doesn't end as
/// unfinished. It does nothing when it runs.
pub fn finished_runs_are_done<D: Disk, O: Sink>()
    ensures { FinishedAreDone D.Disk O.Sink }
{}
