// A session of the console, and how it carries calls out.
ghost use Rattle.std.specs.Prelude.{◌≡◌, ◌<◌, ◌++◌, IfOk, vec_len, vec_capacity};
ghost use Rattle.engine_turns.specs.declared.operations.Said.TheVariants as answer;
ghost use Rattle.machine_core.specs.LawfulCalls.{IsLawful};
ghost use Rattle.rpc_envelope.specs.Outcomes.{outcome_if_any, outcome_view, seen_if_any, turn_of};
ghost use Rattle.rpc_envelope.specs.Turns.{IsPlain};
ghost use Rattle.console_session.specs.CallTurns as specs;
ghost use Rattle.console_session.specs.CallTurns.{IsToldOrLost, places_by};
ghost use Rattle.console_session.specs.Sessions.{AsksForFinish, AsksForNotices, CarriesOutCall, NotesAnswer, TakesCallTurn, session_at};

use dl_clock::Clock;
use dl_disk::Disk;
use dl_kinds::NoMemory;
use engine_core::Engine;
use engine_turns::{Answer, Operation, Said};
use machine_core::{Call, Cursor, Notices};
use reply_values::{methods_outcome, reply_value};
use rpc_console::{Asking, Keys, RpcErr, call_of};
use rpc_envelope::{Outcome, RpcFault};
use serde_json::Value;
use std::alloc::Global;
use turn_desk::{Desk, turns_add_up};

/// A session of the console. Each call is a turn, at the moment that the clock then tells.
pub(crate) struct ConsoleSession<'a, K> {
    pub(crate) number: u32,
    /// What each call is to tell, where there is one.
    pub(crate) secret: Option<&'a str>,
    pub(crate) clock: &'a mut K,
    /// Where the events of its calls stand in the history, in order.
    pub(crate) places: Vec<u32>,
    /// How many of its calls left out saves for want of memory, up to 2^32 - 1.
    pub(crate) starved: u32,
    /// The place up to which a WebSocket was told notices; none before one joined.
    pub(crate) cursor: Option<Cursor>,
}

fn is_finish(said: &Said) -> bool
    ensures { result ≡ specs.is_finish said.now }
{
    matches!(said, Said::Finished)
}

// Puts the place of a reply behind the others.
fn put_place(places: &mut Vec<u32>, said: &Said)
    requires { vec_len places.old < vec_capacity places.old }
    ensures { places.new.items ≡ places.old.items ++ places_by said.now }
{
    if let Said::Replied { place, .. } = said {
        places.push_reserved(*place);
    }
}

// Whether a reply tells that saves were left out: none or one.
fn starved_in_reply(said: &Said) -> u32
    ensures { result ≡ specs.starved_in_reply said.now }
{
    match said {
        Said::Replied { starved, .. } => u32::from(*starved),
        _ => 0,
    }
}

// What an answer tells, unless memory runs out.
fn outcome_by(alloc: Global, said: &Said, keys: &Keys) -> Result<Outcome, NoMemory>
    ensures told { IsToldOrLost (specs.outcome_by keys.now said.now) (outcome_if_any result) }
    ensures plain { IfOk result (λ outcome. IsPlain (outcome_view outcome)) }
{
    match said {
        Said::Replied { reply, .. } => reply_value(alloc, reply, keys),
        Said::JournalFull { .. } => Ok(Outcome::Failed(RpcFault::JournalFull)),
        // Memory was wanting: a call is answered by nothing else.
        _ => Err(NoMemory),
    }
}

// The notices that an answer tells, and the place behind them.
fn told_notices(said: Said) -> Result<(Notices, Cursor), NoMemory>
    ensures { IfOk result (λ told. said ≡ answer.Notices told.0 told.1) }
{
    match said {
        Said::Notices { list, upto } => Ok((list, upto)),
        // Memory was wanting: a turn for notices is answered by nothing else.
        _ => Err(NoMemory),
    }
}

impl<'a, K: Clock> ConsoleSession<'a, K> {
    // Notes what an answer tells of the call's event and of memory.
    fn note(&mut self, said: &Said)
        requires room { vec_len self.old.places < vec_capacity self.old.places }
        ensures { NotesAnswer said.now self.old self.new }
    {
        put_place(&mut self.places, said);
        self.starved = self.starved.saturating_add(starved_in_reply(said));
    }

    // Carries a call out, in a turn.
    fn carry_out<D: Disk, T: Desk<Engine<D>>>(
        &mut self,
        alloc: Global,
        desk: &mut T,
        call: Call,
        keys: &Keys,
    ) -> Result<Outcome, NoMemory>
        requires { IsLawful call }
        ensures carries { TakesCallTurn T.sight T.desk_id K.reads call keys.now
            (session_at self.old desk.old) (session_at self.new desk.new) (outcome_if_any result) }
        ensures plain { IfOk result (λ outcome. IsPlain (outcome_view outcome)) }
    {
        turns_add_up::<Engine<D>>();
        self.places.reserve(1)?;
        let now = self.clock.now();
        let Answer { said, back: _ } = desk.turn(Operation::Call {
            session: self.number,
            call,
            now,
        });
        self.note(&said);
        outcome_by(alloc, &said, keys)
    }

    /// Carries out what a method and its parameters ask for, or tells why it is refused. The parameters are none where
    /// they were an object.
    pub(crate) fn call<D: Disk, T: Desk<Engine<D>>>(
        &mut self,
        alloc: Global,
        desk: &mut T,
        method: &str,
        params: Option<&[Value]>,
    ) -> Result<Outcome, NoMemory>
        ensures carries { CarriesOutCall T.sight T.desk_id K.reads
            (turn_of method.now (seen_if_any params.entry) result)
            (session_at self.old desk.old) (session_at self.new desk.new) }
        ensures plain { IfOk result (λ outcome. IsPlain (outcome_view outcome)) }
    {
        turns_add_up::<Engine<D>>();
        match call_of(alloc, method, params, self.secret) {
            Ok(Asking::One { call, keys }) => self.carry_out(alloc, desk, call, &keys),
            Ok(Asking::Methods) => methods_outcome(alloc),
            Err(RpcErr::Refused(fault)) => Ok(Outcome::Failed(fault)),
            Err(RpcErr::NoMemory) => Err(NoMemory),
        }
    }

    /// Asks in a turn whether the run is finished.
    pub(crate) fn is_finished<D: Disk, T: Desk<Engine<D>>>(&mut self, desk: &mut T) -> bool
        ensures { AsksForFinish T.sight T.desk_id K.reads
            (session_at self.old desk.old) result (session_at self.new desk.new) }
    {
        turns_add_up::<Engine<D>>();
        let Answer { said, back: _ } = desk.turn(Operation::Pulse);
        is_finish(&said)
    }

    /// Asks in a turn for the notices from a place on, and the place behind them; without one, where the history ends.
    pub(crate) fn notices<D: Disk, T: Desk<Engine<D>>>(
        &mut self,
        desk: &mut T,
        from: Option<Cursor>,
    ) -> Result<(Notices, Cursor), NoMemory>
        ensures { AsksForNotices T.sight T.desk_id K.reads from
            (session_at self.old desk.old) result (session_at self.new desk.new) }
    {
        turns_add_up::<Engine<D>>();
        let Answer { said, back: _ } = desk.turn(Operation::Notices { from });
        told_notices(said)
    }
}
