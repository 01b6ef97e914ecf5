// What comes of claims over links to mirrors in memory that serve a payload. Laws do nothing when they run.
ghost use Rattle.served_runs.specs.Answering.{WorkIsAnswered};
ghost use Rattle.served_runs.specs.ServingLaws.{PartsAreGiven, PartsLeadAmong, ServedClaimsAreFaithful, ServedLengthsAreRight};
ghost use Rattle.served_runs.specs.ServedRuns.{RunsAreFaithful, RunsTellRight};

use blameless_mirrors::claims_are_of_chosen_pieces;
use dl_disk::Disk;
use dl_kinds::{Sink, plan_laws};
use link_source::Links;
use machine_core::downloads_stay;
use memory_serving_laws::{
    clean_mirrors_stay, mirrors_hold_alike, served_comes, served_sizes_are_told,
};
use span_map::parts_hold_slices;

/// Of a payload that is served, the parts of resources that are asked of its mirror for a run of blocks of pieces that the options
/// choose give just the bytes of the run.
pub fn parts_of_payloads_are_given()
    ensures given { PartsAreGiven }
    ensures among { PartsLeadAmong }
{
    parts_hold_slices();
}

/// Each exchange of a worker's link in its turns had one answer of the mirrors, or the mirror had hung up.
pub fn work_is_answered()
    ensures { WorkIsAnswered }
{}

/// Where mirrors in memory serve the payload of a download, and no bad answer of theirs is left, or none was used and memory sufficed,
/// each delivery of a claim at that mirror of the download has the payload's bytes, and each loss is told with a count of the link's
/// own faults. A length that a probe tells is the payload's.
pub fn served_claims_are_faithful()
    ensures claims { ServedClaimsAreFaithful }
    ensures lengths { ServedLengthsAreRight }
{
    claims_are_of_chosen_pieces();
    clean_mirrors_stay();
    downloads_stay();
    mirrors_hold_alike();
    parts_of_payloads_are_given();
    plan_laws();
    served_comes();
    served_sizes_are_told();
    work_is_answered();
}

/// So it is of whole runs, whoever took their turns.
pub fn runs_are_faithful<D: Disk, L: Links, O: Sink>()
    ensures { RunsAreFaithful D.Disk O.Sink L.Links }
{
    served_claims_are_faithful();
}

/// .. and a length that was told in one is the payload's.
pub fn runs_tell_right_lengths<D: Disk, L: Links, O: Sink>()
    ensures { RunsTellRight D.Disk O.Sink L.Links }
{
    served_claims_are_faithful();
}
