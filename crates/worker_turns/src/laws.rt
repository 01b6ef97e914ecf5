// Laws. They do nothing when they run.
ghost use Rattle.worker_turns.specs.Alone.{
  LoneTurnsAreBounded,
  LoneWorkersClaimOnce,
  LoneWorkersHoldOnce,
};
ghost use Rattle.worker_turns.specs.Leisure.{
  LeisureIsActive,
  SoloRunsEndByTurns,
  SoloRunsFindOffers,
  SoloTurnsAreFew,
};
ghost use Rattle.worker_turns.specs.Offering.{SoloRunsAreBusy};
ghost use Rattle.worker_turns.specs.Reads.{SoloSealsAreTaken, SoloTurnsAreBounded};
ghost use Rattle.worker_turns.specs.TurnBounds.{TurnsAreBounded};

use conn_worker::answers_are_sound;
use dl_disk::Disk;
use engine_turns::turns_tell_runs;
use machine_core::{accounts_match_runs, downloads_stay};
use offered_work::active_have_offers;
use stored_run::runs_follow;

/// A worker none of whose turns is for nothing takes at most eight turns for each event that its
/// turns append and each byte that its link receives, and eight more.
pub fn turns_are_bounded()
    ensures { TurnsAreBounded }
{
    answers_are_sound();
}

/// Of a worker that takes all turns of a run behind the first ones no two claims stand at once:
/// each of its deliveries counts blocks, work is asked for where no claim stands, and no turn is
/// held up behind one that was.
pub fn lone_workers_claim_once()
    ensures claims { LoneWorkersClaimOnce }
    ensures holds { LoneWorkersHoldOnce }
{
    downloads_stay();
    accounts_match_runs();
    turns_tell_runs();
}

/// Such a worker takes at most so many turns, where its seals are taken and it always finds
/// something to do or to wait for.
pub fn lone_turns_are_bounded()
    ensures { LoneTurnsAreBounded }
{
    turns_are_bounded();
    lone_workers_claim_once();
}

/// A run over one link and over a disk that tells what it reads, each download of which writes its
/// own files: the disk reads a piece that was handed out as it did, so the seals of the worker are
/// taken. It takes at most so many turns, where it always finds something to do or to wait for.
pub fn solo_turns_are_bounded<D: Disk>()
    ensures seals { SoloSealsAreTaken D.state }
    ensures turns { SoloTurnsAreBounded D.state }
{
    runs_follow();
    lone_turns_are_bounded();
}

/// The worker of such a run asks for work while no claim stands and no piece is handed out. So it
/// is never idle where by the history alone an active download always has something to offer then.
pub fn solo_runs_are_busy<D: Disk>()
    ensures { SoloRunsAreBusy D.state }
{
    lone_workers_claim_once();
}

/// In a run without a console some download is active as long as something is left to do.
pub fn leisure_is_active()
    ensures { LeisureIsActive }
{}

/// Where the downloads of such a run have mirrors, and the options leave room for claims, an active
/// one always has something to offer then. So the worker takes at most so many turns.
pub fn solo_runs_find_offers<D: Disk>()
    ensures offers { SoloRunsFindOffers D.state }
    ensures turns { SoloTurnsAreFew D.state }
    ensures ends { SoloRunsEndByTurns D.state }
{
    active_have_offers();
    leisure_is_active();
    solo_runs_are_busy::<D>();
    solo_turns_are_bounded::<D>();
}
