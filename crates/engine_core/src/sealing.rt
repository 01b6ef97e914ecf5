// Pieces that workers compared.
ghost use Rattle.std.specs.Prelude.{◌≡◌, All};
ghost use Rattle.engine_core.specs.Engines.{KeepsRates, past_of, start_of};
ghost use Rattle.engine_core.specs.Handing.{IsOut, handed_but};
ghost use Rattle.engine_core.specs.Performing.{PerformsTurn};
ghost use Rattle.engine_turns.specs.Told.{is_taken};
ghost use Rattle.engine_turns.specs.declared.operations.Operation.TheVariants as operation;
ghost use Rattle.machine_core.specs.RunLegal.{IsLegal};

use crate::state::EngineState;
use dl_disk::Disk;
use dl_kinds::{Gid, Moment};
use engine_turns::Said;
use machine_core::{HandedPieces, accounts_match_runs};
use verify_piece::Sealed;

// Whether a seal was taken: of a piece that is settled, or void.
fn is_seal_taken(said: &Said) -> bool
    ensures { result ≡ is_taken said.now }
{
    match said {
        Said::Done | Said::Void => true,
        _ => false,
    }
}

// The piece goes where its seal was taken.
fn hand_back_taken(handed: &mut HandedPieces, gid: Gid, piece: u32, said: &Said)
    ensures { handed.new.pieces ≡ handed_but gid piece (is_taken said.now) handed.old.pieces }
{
    if is_seal_taken(said) {
        handed.hand_back(gid, piece);
    }
}

impl<D: Disk> EngineState<D> {
    // The history is legal.
    fn tells_legal(&self)
        ensures { IsLegal (start_of self.now) (past_of self.now) }
    {
        let _ = self.run.machine().journal();
    }

    // A worker compared a piece. One that wasn't handed out is void.
    pub(crate) fn seal(&mut self, gid: Gid, sealed: &Sealed, now: Moment) -> Said
        requires rates { KeepsRates self.old }
        requires out { All (IsOut (start_of self.old) (past_of self.old))
            self.old.handed.pieces }
        ensures { PerformsTurn D.tells D.state D.faults (operation.Seal gid sealed.now now)
            self.old self.new result }
    {
        accounts_match_runs();
        self.tells_legal();
        if let Err(said) = self.begin(false, now) {
            return said;
        }
        if !self.handed.is_out(gid, sealed.piece()) {
            return Said::Void;
        }
        let said = self.run.seal(gid, sealed);
        hand_back_taken(&mut self.handed, gid, sealed.piece(), &said);
        said
    }
}
