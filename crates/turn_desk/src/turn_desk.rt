// The desk of several threads, and one turn at it.
ghost use Rattle.std.specs.Prelude.{◌≡◌, ◌<◌};
ghost use Rattle.turn_desk.specs.Passes.{TurnDeskView};
ghost use Rattle.turn_desk.specs.Rule.{desk_of, TakesTurn, IsIdle, IsWaiting, Waits, HasTurn, IsServing, HasServed, Looks};

use crate::gates::{Gates, Lobby};
use crate::rule::{DeskKey, DeskRule, DeskSeat, Draw, GiveBack, LastTurn, Look, SeatView, Slot};
use crate::served::Served;
use atomic_table::Table;
use std::alloc::Global;
use std::hint;
use std::marker::Model;
use std::snapshot::Snapshot;
use std::sync::Wait;

/// How often a chair looks for its turn before it sleeps.
const LOOKS: u32 = 100;

/// How often a patient chair sleeps in the lobby before it draws a ticket though the desk is taken.
pub(crate) const NAPS: u32 = 8;

/// A state that several threads take turns of.
pub struct TurnDesk<S: Served> {
    pub(crate) table: Table<
        Slot<S, S::Op, S::Answer>,
        SeatView<S::Start, S::Op, S::Answer, S::Entry>,
        DeskKey<S>,
        DeskRule<S>,
        Global,
    >,
    pub(crate) passes: u32,
    pub(crate) gates: Gates,
    pub(crate) lobby: Lobby,
}

impl<S: Served> Model for TurnDesk<S> {
    ghost Value = { TurnDeskView S.Start S.Entry };

    ghost view = { λ d. desk_of d.table.shared.table_id d.table.shared.key.solo.value d.passes };

    ghost invariant = { λ d. (d.table.shared.table_id.words ≡ 3)
        × (d.table.shared.table_id.slots ≡ 1) × (d.table.shared.key.passes ≡ d.passes) × (0 < d.passes) };
}

impl<S: Served> TurnDesk<S> {
    // Whether each ticket that was drawn was served.
    fn is_free(&self) -> bool {
        self.table.shared.peek(0) == self.table.shared.peek(1)
    }

    // Whether the desk was free while it looked.
    fn finds_free(&self) -> bool {
        for _ in 0..LOOKS {
            if self.is_free() {
                return true;
            }
            hint::spin_loop();
        }
        false
    }

    // Sleeps until somebody is called, unless the desk is free.
    fn nap<R: Wait>(&self, rt: &R) {
        let count = self.lobby.enter();
        if !self.is_free() {
            self.lobby.sleep(rt, count);
        }
        self.lobby.leave();
    }

    // Waits until the desk is free, but not longer than for so many sleeps. Whoever draws a ticket is waited for, also while
    // it wakes up: so none is drawn as long as those who are awake take turns, and each chair comes to its turn all the same.
    fn linger<R: Wait>(&self, rt: &R, naps: u32) {
        for _ in 0..naps {
            if self.finds_free() {
                return;
            }
            self.nap(rt);
        }
    }

    fn draw(&self, seat: &mut DeskSeat<S>) -> u64
        requires table { seat.old.table_id ≡ self.now.desk_id }
        requires idle { IsIdle self.now.given seat.old.me }
        ensures table { seat.new.table_id ≡ seat.old.table_id }
        ensures drew { Waits self.now.given result seat.old.me seat.new.me }
    {
        self.table.shared.fetch_add::<Draw>(seat, 0, 1)
    }

    // Whether the seat's turn has come. If so, the seat has the state.
    fn look(&self, seat: &mut DeskSeat<S>, ticket: u64) -> bool
        requires table { seat.old.table_id ≡ self.now.desk_id }
        requires waiting { IsWaiting self.now.given ticket seat.old.me }
        ensures table { seat.new.table_id ≡ seat.old.table_id }
        ensures took { Looks S.Served self.now.given ticket seat.old.me result seat.new.me }
    {
        self.table.shared.load::<Look<S>>(seat, 1) == ticket
    }

    // Whether the turn came while it looked for it.
    fn look_often(&self, seat: &mut DeskSeat<S>, ticket: u64) -> bool
        requires table { seat.old.table_id ≡ self.now.desk_id }
        requires waiting { IsWaiting self.now.given ticket seat.old.me }
        ensures table { seat.new.table_id ≡ seat.old.table_id }
        ensures took { Looks S.Served self.now.given ticket seat.old.me result seat.new.me }
    {
        for _ in 0..LOOKS {
            if self.look(seat, ticket) {
                return true;
            }
            hint::spin_loop();
        }
        false
    }

    // Waits for the seat's turn.
    fn wait<R: Wait>(&self, rt: &R, seat: &mut DeskSeat<S>, ticket: u64)
        requires table { seat.old.table_id ≡ self.now.desk_id }
        requires waiting { IsWaiting self.now.given ticket seat.old.me }
        ensures table { seat.new.table_id ≡ seat.old.table_id }
        ensures took { HasTurn S.Served self.now.given ticket seat.old.me seat.new.me }
    {
        if self.look_often(seat, ticket) {
            return;
        }
        for _ in rt.forever() {
            let count = self.gates.count(ticket);
            if self.look(seat, ticket) {
                return;
            }
            self.gates.sleep(rt, ticket, count);
        }
        unreachable!()
    }

    // Serves at the seat that has the state, and gives the state back.
    fn serve_at(&self, seat: &mut DeskSeat<S>, op: S::Op) -> S::Answer
        requires table { seat.old.table_id ≡ self.now.desk_id }
        requires lawful { S.is_lawful op }
        requires serving { IsServing S.Served self.now.given seat.old.me }
        ensures table { seat.new.table_id ≡ seat.old.table_id }
        ensures served { HasServed S.Served self.now.given seat.old.me op result seat.new.me }
    {
        let shared = &self.table.shared;
        let Slot { served, last: _ } = shared.exchange(
            seat,
            0,
            Slot {
                served: None,
                last: None,
            },
        );
        let Some(mut state) = served else {
            unreachable!()
        };
        let asked = Snapshot::of(&op);
        let answer = state.serve(op);
        let last = LastTurn {
            op: asked,
            answer: Snapshot::of(&answer),
        };
        let Slot {
            served: hollow,
            last: _,
        } = shared.exchange(
            seat,
            0,
            Slot {
                served: Some(state),
                last: Some(last),
            },
        );
        let None = hollow else { unreachable!() };
        shared.fetch_add::<GiveBack<S>>(seat, 1, 1);
        answer
    }

    // Wakes the holder of the ticket that is served now, or somebody in the lobby, where it wasn't drawn yet.
    fn call(&self, ticket: u64) {
        if self.table.shared.peek(0) != ticket {
            self.gates.open(ticket);
        } else {
            self.lobby.call();
        }
    }

    // A turn behind at most so many sleeps without a ticket.
    pub(crate) fn take_turn<R: Wait>(
        &self,
        rt: &R,
        seat: &mut DeskSeat<S>,
        naps: u32,
        op: S::Op,
    ) -> S::Answer
        requires table { seat.old.table_id ≡ self.now.desk_id }
        requires lawful { S.is_lawful op }
        requires idle { IsIdle self.now.given seat.old.me }
        ensures table { seat.new.table_id ≡ seat.old.table_id }
        ensures idle { IsIdle self.now.given seat.new.me }
        ensures took { TakesTurn S.relates self.now.given seat.old.me op result seat.new.me }
    {
        self.linger(rt, naps);
        let ticket = self.draw(seat);
        self.wait(rt, seat, ticket);
        let answer = self.serve_at(seat, op);
        self.call(ticket.wrapping_add(1));
        answer
    }
}
