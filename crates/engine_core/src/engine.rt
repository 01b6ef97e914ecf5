// A run that is steered by turns.
ghost use Rattle.std.specs.Prelude.{◌≡◌, [], IfErr, IfOk, reverse};
ghost use Rattle.engine_core.specs.Beginnings.{IsNewEngine};
ghost use Rattle.engine_core.specs.Engines.{past_of};

use crate::state::EngineState;
use dl_disk::Disk;
use dl_kinds::Moment;
use machine_core::{HandedPieces, Journal, Machine};
use option_set::{Num, Options};
use rate_limits::RateLimits;
use std::alloc::Global;
use std::marker::Model;
use std::snapshot::Snapshot;
use stored_run::StoredRun;

/// A run that is steered by turns. Each operation that it serves is one turn: what it is answered, and the events that come,
/// are what the turns before it say.
#[derive(Drop)]
pub struct Engine<D: Disk> {
    pub(crate) alloc: Global,
    pub(crate) state: EngineState<D>,
    // The disk that it was given. What it then told is told still.
    pub(crate) given: Snapshot<D>,
}

impl<D: Disk> Model for Engine<D> {
    ghost use Rattle.engine_core.specs.EngineViews.{EngineView};
    ghost use Rattle.engine_core.specs.Engines.{IsEngineState};

    ghost Value = { EngineView D };

    ghost view = { λ e. record { state = e.state; given = e.given.value } };

    ghost invariant = { λ e. IsEngineState e.state };
}

impl<D: Disk> Engine<D> {
    /// A run without turns, on this disk. `gids` is what the gids of downloads are made from, `doors` how many doors the
    /// console has. Without memory the disk is given back.
    pub fn new(alloc: Global, disk: D, gids: u64, global: Options, doors: u16) -> Result<Self, D>
        ensures engine { IfOk result (IsNewEngine D.tells D.state disk gids global doors) }
        ensures disk { IfErr result (λ given_back. given_back ≡ disk) }
    {
        global.values_are_within();
        let rate = global.number(Num::MaxOverallDownloadLimit);
        let given = Snapshot::of(&disk);
        let run = StoredRun::new(alloc, disk, gids, global, doors)?;
        let limits = RateLimits::new(alloc, rate, Moment(0));
        Ok(Engine {
            alloc,
            state: EngineState {
                run,
                handed: HandedPieces::new(alloc),
                limits,
            },
            given,
        })
    }

    /// The run, as it is after the turns so far.
    pub fn machine(&self) -> &Machine
        ensures { result.now ≡ self.entry.now.state.run.machine }
    {
        self.state.run.machine()
    }

    /// The disk, and what happened.
    pub fn into_parts(self) -> (D, Journal)
        ensures disk { result.0 ≡ self.state.run.disk }
        ensures events { result.1.events.items ≡ reverse (past_of self.state) }
    {
        let Engine {
            alloc: _,
            state: EngineState {
                run,
                handed: _,
                limits: _,
            },
            given: _,
        } = self;
        run.into_parts()
    }
}
