// A session at the desk and the door where it began.
ghost use Rattle.std.specs.Prelude.{◌≡◌};
ghost use Rattle.console_socket.specs.Sessions.{says, seen_inward};
ghost use Rattle.console_session.specs.Sessions.{AsksForFinish, HasAnswered, HasCarriedOut, TakesStep, session_at};
ghost use Rattle.console_session.specs.SocketSteps as specs;

use crate::noticing::texts_of;
use crate::session::ConsoleSession;
use console_socket::{Inward, Session};
use dl_clock::Clock;
use dl_disk::Disk;
use dl_kinds::{NoMemory, Texts};
use engine_core::Engine;
use machine_core::Cursor;
use rpc_envelope::{Caller, LongText, Outcome, answer_body};
use serde_json::Value;
use std::alloc::Global;
use std::marker::PhantomData;
use turn_desk::{Desk, turns_add_up};

// From where on notices are asked for.
fn asked_from(inward: &Inward<'_>, from: Option<Cursor>) -> Option<Cursor>
    ensures { result ≡ specs.asked_from (seen_inward inward.now) from }
{
    match inward {
        Inward::Join => None,
        Inward::Text(_) | Inward::Tick => from,
    }
}

/// A session at desks of this type.
pub(crate) struct Attendant<'a, D: Disk, T: Desk<Engine<D>>, K: Clock> {
    pub(crate) desks: PhantomData<(D, T)>,
    pub(crate) session: ConsoleSession<'a, K>,
}

impl<'a, D: Disk, T: Desk<Engine<D>>, K: Clock> Caller<T> for Attendant<'a, D, T, K> {
    ghost at = { λ a desk first began invoked. HasCarriedOut T.sight T.desk_id K.reads
        (session_at first.session began) invoked (session_at a.session desk) };

    fn call(
        &mut self,
        alloc: Global,
        desk: &mut T,
        method: &str,
        params: Option<&[Value]>,
    ) -> Result<Outcome, NoMemory> {
        turns_add_up::<Engine<D>>();
        self.session.call::<D, T>(alloc, desk, method, params)
    }
}

impl<'a, D: Disk, T: Desk<Engine<D>>, K: Clock> Attendant<'a, D, T, K> {
    // Carries out the calls of a text, and gives what answers them. No call moves the place up to which notices were told.
    fn answer_text(
        &mut self,
        alloc: Global,
        desk: &mut T,
        text: &str,
    ) -> Result<Option<LongText>, NoMemory>
        ensures { HasAnswered T.sight T.desk_id K.reads (says text.now)
            (session_at self.old.session desk.old) result
            (session_at self.new.session desk.new) }
    {
        turns_add_up::<Engine<D>>();
        let cursor = self.session.cursor;
        let answer = answer_body(alloc, desk, self, text.as_bytes());
        self.session.cursor = cursor;
        answer
    }

    // Carries out the calls that came, and gives what answers them.
    fn answer(
        &mut self,
        alloc: Global,
        desk: &mut T,
        inward: &Inward<'_>,
    ) -> Result<Option<LongText>, NoMemory>
        ensures { HasAnswered T.sight T.desk_id K.reads (seen_inward inward.now)
            (session_at self.old.session desk.old) result
            (session_at self.new.session desk.new) }
    {
        turns_add_up::<Engine<D>>();
        match inward {
            Inward::Text(text) => self.answer_text(alloc, desk, text),
            Inward::Join => Ok(None),
            Inward::Tick => Ok(None),
        }
    }
}

impl<'a, D: Disk, T: Desk<Engine<D>>, K: Clock> Session<T> for Attendant<'a, D, T, K> {
    ghost asks = { λ a desk finished a' desk'. AsksForFinish T.sight T.desk_id K.reads
        (session_at a.session desk) finished (session_at a'.session desk') };

    ghost steps = { λ a desk step a' desk'. TakesStep T.sight T.desk_id K.reads step
        (session_at a.session desk) (session_at a'.session desk') };

    fn is_finished(&mut self, desk: &mut T) -> bool {
        turns_add_up::<Engine<D>>();
        self.session.is_finished::<D, T>(desk)
    }

    fn step(
        &mut self,
        alloc: Global,
        desk: &mut T,
        inward: &Inward<'_>,
    ) -> Result<Texts, NoMemory> {
        turns_add_up::<Engine<D>>();
        let from = asked_from(inward, self.session.cursor);
        let answer = self.answer(alloc, desk, inward)?;
        let (notices, upto) = self.session.notices::<D, T>(desk, from)?;
        let texts = texts_of(alloc, &answer, &notices)?;
        self.session.cursor = Some(upto);
        Ok(texts)
    }
}
