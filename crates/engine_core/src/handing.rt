// The pieces that workers compare.
ghost use Rattle.std.specs.Prelude.{◌≡◌, ◌≤◌, ◌∷◌, [], All, List, drop, filter, length, reverse};
ghost use Rattle.engine_core.specs.Handing.{IsOut, IsUnsettled, OutPiecesStay, settle_none, stays_handed};
ghost use Rattle.engine_turns.specs.Told.{history_after};
ghost use Rattle.machine_core.specs.declared.events.Event.{Event};
ghost use Rattle.engine_core.specs.Engines.{past_of, start_of};

use crate::state::EngineState;
use dl_disk::Disk;
use dl_history::histories_are_sound;
use machine_core::{Event, HandedPieces, Journal, downloads_are_legal, downloads_stay};

// A piece goes that the event settles.
fn hand_back_by(handed: &mut HandedPieces, event: &Event)
    ensures pieces { handed.new.pieces ≡ filter (settle_none (event.now ∷ [])) handed.old.pieces }
    ensures room { handed.old.room ≤ handed.new.room }
{
    if let Event::Settled { gid, piece, .. } = event {
        handed.hand_back(*gid, *piece);
    }
}

// The pieces go that events from a place of the journal on settle.
fn hand_back_settled(handed: &mut HandedPieces, journal: &Journal, from: u32)
    ensures pieces { handed.new.pieces
        ≡ filter (settle_none (drop from journal.now.events.items)) handed.old.pieces }
    ensures room { handed.old.room ≤ handed.new.room }
{
    for at in from..journal.len() {
        hand_back_by(handed, journal.get(at).unwrap());
    }
}

// A full piece that awaits its finding does so until it is settled.
fn out_pieces_stay()
    ensures { OutPiecesStay }
{
    histories_are_sound();
    downloads_are_legal();
    downloads_stay();
}

impl<D: Disk> EngineState<D> {
    // The pieces go that events from a place of the journal on settle, and those of downloads that aren't active.
    pub(crate) fn take_back(&mut self, from: u32)
        ensures run { self.new.run ≡ self.old.run }
        ensures limits { self.new.limits ≡ self.old.limits }
        ensures pieces { self.new.handed.pieces ≡ filter
            (stays_handed (start_of self.old) (past_of self.old)
            (drop from (reverse (past_of self.old)))) self.old.handed.pieces }
        ensures out { (before events : List Event)
            → past_of self.old ≡ history_after before events → from ≡ length before
            → All (IsUnsettled (start_of self.old) before) self.old.handed.pieces
            → All (IsOut (start_of self.old) (past_of self.old)) self.new.handed.pieces }
    {
        out_pieces_stay();
        hand_back_settled(&mut self.handed, self.run.machine().journal(), from);
        self.handed.keep_active(self.run.machine());
    }
}
