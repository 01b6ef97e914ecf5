// Where the summary of a load's run goes.
ghost use Rattle.std.specs.Prelude.{[], false};

use dl_kinds::{IoErr, Sink};

/// A sink of whose bytes nothing is kept. It never fails.
#[derive(Debug, Drop)]
pub struct UnseenSink {}

impl Sink for UnseenSink {
    ghost tells = { false };

    ghost taken = { λ sink. [] };

    ghost faults = { λ sink. 0 };

    fn write(&mut self, _bytes: &[u8]) -> Result<(), IoErr> {
        Ok(())
    }
}
