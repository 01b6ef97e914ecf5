// Calls of the console.
ghost use Rattle.std.specs.Prelude.{◌≡◌};
ghost use Rattle.engine_core.specs.Buckets.{changes_options};
ghost use Rattle.engine_core.specs.Engines.{KeepsRates};
ghost use Rattle.engine_core.specs.Performing.{PerformsTurn};
ghost use Rattle.engine_turns.specs.declared.operations.Operation.TheVariants as operation;
ghost use Rattle.machine_core.specs.LawfulCalls.{IsLawful};

use crate::state::EngineState;
use dl_disk::Disk;
use dl_kinds::Moment;
use engine_turns::Said;
use machine_core::Call;

// Whether a call changes the options of a download.
fn changes_options(call: &Call) -> bool
    ensures { result ≡ changes_options call.now }
{
    matches!(call, Call::ChangeOption { .. })
}

impl<D: Disk> EngineState<D> {
    // A call of a console session, or of the command line. It brings one download at most.
    pub(crate) fn call(&mut self, session: u32, call: Call, now: Moment) -> Said
        requires lawful { IsLawful call }
        requires rates { KeepsRates self.old }
        ensures { PerformsTurn D.tells D.state D.faults (operation.Call session call now)
            self.old self.new result }
    {
        if let Err(said) = self.begin(false, now) {
            return said;
        }
        match self.limits.reserve(1) {
            Ok(()) => {
                let changes = changes_options(&call);
                let said = self.run.call(session, call);
                self.follow_options(changes);
                said
            }
            Err(_) => Said::NoMemory,
        }
    }
}
