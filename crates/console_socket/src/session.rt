// Who carries out the calls of the console.
ghost use Rattle.std.specs.Prelude.{Bool, []};
ghost use Rattle.rpc_envelope.specs.Turns.{Extends};
ghost use Rattle.console_socket.specs.Sessions.{HasStepped, SocketStep};

use dl_kinds::{NoMemory, Texts};
use rpc_envelope::Caller;
use std::alloc::Global;

/// What comes to a session over a WebSocket.
#[derive(Clone, Copy, Debug)]
pub enum Inward<'a> {
    /// It begins.
    Join,
    /// A text message.
    Text(&'a str),
    /// Nothing came for a while.
    Tick,
}

/// Carries out the calls of the console, at a desk that others may share, and tells whether the run is finished.
pub trait Session<T>: Caller<T> {
    /// What an asking whether the run is finished makes of session and desk, by its answer.
    ghost asks: { Self → T → Bool → Self → T → Type 0 };

    /// What a step of a WebSocket makes of session and desk.
    ghost steps: { Self → T → SocketStep → Self → T → Type 0 };

    /// Whether the run is finished. No call is carried out.
    fn is_finished(&mut self, desk: &mut T) -> bool
        ensures asked { asks self.old desk.old result self.new desk.new }
        ensures calls { Extends (Self.at self.old desk.old) (Self.at self.new desk.new) [] };

    /// Carries out the calls of a text, and gives the texts to be sent: the answer, if there is one, and then the notices that
    /// are due.
    fn step(&mut self, alloc: Global, desk: &mut T, inward: &Inward<'_>) -> Result<Texts, NoMemory>
        ensures stepped { HasStepped Self.at steps inward.now result
            self.old desk.old self.new desk.new };
}
