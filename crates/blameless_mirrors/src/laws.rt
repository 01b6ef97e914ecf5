// What follows in runs in which a mirror brings a payload's own bytes.
ghost use Rattle.blameless_mirrors.specs.Blameless.{DeliveredAreRead, MarksAreOfLinks, NeverEndDead, StayEligible, WrongFindingsArentTheirs};
ghost use Rattle.blameless_mirrors.specs.Chosen.{ClaimsAreOfChosen};
ghost use Rattle.blameless_mirrors.specs.Lone.{BroughtOnlyComplete, FreshAreNeverRefused, LoneAreAlone, LoneDownloadsEndWell};
ghost use Rattle.blameless_mirrors.specs.LoneUris.{UnlistedCompleteAreWhole, UnlistedDeliveredAreRead, UnlistedOnlyComplete};

use dl_disk::Disk;
use dl_kinds::plan_laws;
use machine_core::{accounts_match_runs, known_downloads_are_idle};
use stored_run::runs_follow;

/// Each block of a claim of a download of a metainfo file is of a piece that the download's options choose. It does nothing when it
/// runs.
pub fn claims_are_of_chosen_pieces()
    ensures { ClaimsAreOfChosen }
{
    accounts_match_runs();
    runs_follow();
}

/// Each block that is there and came from the mirror reads as the payload's bytes, behind each turn. It does nothing when it
/// runs.
pub fn delivered_blocks_are_read<D: Disk>()
    ensures { DeliveredAreRead D.state }
{
    plan_laws();
    accounts_match_runs();
    runs_follow();
}

/// Where each piece of the payload that the options choose has its listed digest, no piece that the mirror alone gave is found
/// wrong, so a mark that is held against it is that of a link that failed; and where none did, it is eligible for each piece, and
/// the download never ends as dead. It does nothing when it runs.
pub fn faithful_mirrors_are_blameless<D: Disk>()
    ensures findings { WrongFindingsArentTheirs D.state }
    ensures marks { MarksAreOfLinks D.state }
    ensures eligible { StayEligible D.state }
    ensures dead { NeverEndDead D.state }
{
    plan_laws();
    accounts_match_runs();
    runs_follow();
}

/// The only download of a run, where it has a metainfo file, ends as complete or dead, by a fault of the disk, or since its store
/// refuses what stands of it; and it alone has its want. It does nothing when it runs.
pub fn lone_downloads_end_well()
    ensures ends { LoneDownloadsEndWell }
    ensures alone { LoneAreAlone }
{
    known_downloads_are_idle();
    runs_follow();
}

/// Where no control file of it stood as the run began, and memory sufficed, it isn't refused; and where a mirror brings the
/// payload, and neither its links nor the disk fail, it ends by being complete alone. It does nothing when it runs.
pub fn brought_downloads_only_complete<D: Disk>()
    ensures refused { FreshAreNeverRefused D.state }
    ensures complete { BroughtOnlyComplete D.state }
{
    plan_laws();
    accounts_match_runs();
    known_downloads_are_idle();
    runs_follow();
}

/// So it is of the only download of a run without a metainfo file and a checksum: where nothing stood in its way as the run began,
/// a mirror brings just a payload's bytes, and neither the mirror's links nor the disk fail, it ends by being complete alone. It
/// does nothing when it runs.
pub fn unlisted_downloads_only_complete<D: Disk>()
    ensures { UnlistedOnlyComplete D.state }
{
    runs_follow();
}

/// Each block of it that is there and came from such a mirror reads as the payload's bytes, behind each turn. It does nothing when
/// it runs.
pub fn unlisted_blocks_are_read<D: Disk>()
    ensures { UnlistedDeliveredAreRead D.state }
{
    plan_laws();
    accounts_match_runs();
    runs_follow();
}

/// Where all its mirrors are such, no control file of it stood as the run began, and it ended as complete, its file has just the
/// payload's bytes. It does nothing when it runs.
pub fn unlisted_complete_downloads_are_whole<D: Disk>()
    ensures { UnlistedCompleteAreWhole D.state }
{
    plan_laws();
    accounts_match_runs();
    runs_follow();
}
