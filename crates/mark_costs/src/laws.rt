// What is held against mirrors that hold a piece of a payload, by what they answered. Laws do nothing when they run.
ghost use Rattle.mark_costs.specs.Paid.{AffordedNeverDie, MarksArePaid};
ghost use Rattle.mark_costs.specs.Served.{ServedNeverDie, ServedOnlyComplete};

use blameless_mirrors::{brought_downloads_only_complete, lone_downloads_end_well};
use dl_disk::Disk;
use dl_kinds::plan_laws;
use machine_core::{accounts_match_runs, downloads_stay, known_downloads_are_idle};
use memory_serving_laws::{bad_answers_pay, mirrors_hold_alike};
use span_map::parts_hold_slices;
use stored_run::runs_follow;

/// A mark is held against a mirror for a piece that it holds only where a turn brought something wrong of the piece from it. Where each
/// piece has a mirror of which fewer such turns come than it has tries, the download never ends as dead.
pub fn marks_are_paid<D: Disk>()
    ensures paid { MarksArePaid D.state }
    ensures afforded { AffordedNeverDie D.state }
{
    plan_laws();
    accounts_match_runs();
    runs_follow();
}

/// Where a run's work is one worker's over one link, a piece that a mirror in memory holds is never dead, if fewer bad answers are left of
/// the mirrors that its URLs lead through than it has tries, and the link doesn't fail.
pub fn served_pieces_never_die<D: Disk>()
    ensures { ServedNeverDie D.state }
{
    bad_answers_pay();
    downloads_stay();
    marks_are_paid::<D>();
    mirrors_hold_alike();
    parts_hold_slices();
    plan_laws();
}

/// Where it is so of each wanted piece, the only download of such a run, if no control file of it stood as the run began, and neither memory was
/// wanting nor the disk failed, ends by being complete alone.
pub fn served_downloads_only_complete<D: Disk>()
    ensures { ServedOnlyComplete D.state }
{
    accounts_match_runs();
    brought_downloads_only_complete::<D>();
    known_downloads_are_idle();
    lone_downloads_end_well();
    plan_laws();
    runs_follow();
    served_pieces_never_die::<D>();
}
