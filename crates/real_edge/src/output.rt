// The program's output.
ghost use Rattle.std.specs.Prelude.{false, []};

use crate::faults::Faults;
use dl_kinds::{IoErr, Sink};
use std::io::Write;

/// A writer such as standard output. Each write reaches the system before it is answered.
#[derive(Drop)]
pub struct StdOut<W: Write> {
    inner: W,
    faults: Faults,
}

impl<W: Write> StdOut<W> {
    pub fn new(inner: W) -> Self {
        StdOut {
            inner,
            faults: Faults::new(),
        }
    }
}

impl<W: Write> Sink for StdOut<W> {
    ghost tells = { false };

    ghost taken = { λ _. [] };

    ghost faults = { λ out. out.faults.count };

    fn write(&mut self, bytes: &[u8]) -> Result<(), IoErr> {
        let outcome = self
            .inner
            .write_all(bytes)
            .and_then(|()| self.inner.flush());
        self.faults.note(outcome)
    }
}
