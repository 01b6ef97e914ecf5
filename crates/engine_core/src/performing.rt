// Operations.
ghost use Rattle.std.specs.Prelude.{◌≡◌, []};
ghost use Rattle.engine_core.specs.Engines.{IsEngineState};
ghost use Rattle.engine_core.specs.Performing.{PerformsTurn};
ghost use Rattle.engine_turns.specs.RunTurns.{IsLawfulOperation, brought_bytes};

use crate::state::EngineState;
use dl_disk::Disk;
use dl_kinds::Blob;
use engine_turns::{Answer, Operation, Said};
use std::alloc::Global;

// The answer to an operation that brought no bytes.
fn without_bytes(alloc: Global, said: Said) -> Answer
    ensures said { result.said ≡ said }
    ensures back { result.back ≡ [] }
{
    Answer {
        said,
        back: Blob::wrap(Vec::new(alloc)),
    }
}

impl<D: Disk> EngineState<D> {
    // An operation is carried out, and the bytes that it brought are given back.
    pub(crate) fn perform(&mut self, alloc: Global, op: Operation) -> Answer
        requires lawful { IsLawfulOperation op }
        requires state { IsEngineState self.old }
        ensures turn { PerformsTurn D.tells D.state D.faults op self.old self.new result.said }
        ensures back { result.back ≡ brought_bytes op }
    {
        match op {
            Operation::Call { session, call, now } => {
                without_bytes(alloc, self.call(session, call, now))
            }
            Operation::Next { worker, now } => without_bytes(alloc, self.next(worker, now)),
            Operation::Deliver {
                claim,
                run,
                bytes,
                now,
            } => Answer {
                said: self.deliver(claim, run, bytes.bytes(), now),
                back: bytes,
            },
            Operation::More { claim, want, now } => without_bytes(
                alloc,
                self.more(claim, want, now),
            ),
            Operation::Lose { claim, mark, now } => without_bytes(
                alloc,
                self.lose(claim, mark, now),
            ),
            Operation::Sized { claim, total, now } => without_bytes(
                alloc,
                self.size(claim, total, now),
            ),
            Operation::Seal { gid, sealed, now } => Answer {
                said: self.seal(gid, &sealed, now),
                back: sealed.into_bytes(),
            },
            Operation::Pulse => without_bytes(alloc, self.pulse()),
            Operation::Notices { from } => without_bytes(alloc, self.notices(alloc, from)),
            Operation::Leave => without_bytes(alloc, self.leave()),
            Operation::Stop { now } => without_bytes(alloc, self.stop(now)),
        }
    }
}
