// What lies in the table, what a seat knows, and what each step tells.
use crate::served::Served;
use crate::solo::SoloDesk;
use crate::turn::{Given, Turn};
use atomic_table::{Join, Play, Seat, Split, TableRule};
use std::collections::LinkedList;
use std::marker::PhantomData;
use std::snapshot::Snapshot;

/// The operation and the answer of the turn that was served last.
pub struct LastTurn<O, A> {
    pub op: Snapshot<O>,
    pub answer: Snapshot<A>,
}

/// What the table's slot has: the state, and beside it the turn that it served last.
pub struct Slot<S, O, A> {
    pub served: Option<S>,
    pub last: Option<LastTurn<O, A>>,
}

/// What a table is told once: the desk of one owner that it came from, and the number of passes.
pub struct DeskKey<S: Served> {
    pub solo: Snapshot<SoloDesk<S>>,
    pub passes: u32,
}

/// The number of a pass, with its turns. No value of it is made.
pub struct Share<O, A, E> {
    pub number: u64,
    pub own: LinkedList<Turn<O, A, E>>,
}

/// What a seat knows. No value of it is made.
pub struct SeatView<T, O, A, E> {
    /// None once the seat was joined to another.
    pub given: Option<Given<T, E>>,
    /// The numbers from `next` on, `left` of them, are still to be handed on.
    pub next: u64,
    pub left: u64,
    pub seen: LinkedList<Turn<O, A, E>>,
    pub shares: LinkedList<Share<O, A, E>>,
    pub ticket: Option<u64>,
    pub has_turn: bool,
}

/// The rule of the table.
pub struct DeskRule<S> {
    of: PhantomData<S>,
}

impl<S: Served> TableRule<
    Slot<S, S::Op, S::Answer>,
    SeatView<S::Start, S::Op, S::Answer, S::Entry>,
    DeskKey<S>,
> for DeskRule<S> {
    ghost use Rattle.turn_desk.specs.Rule.{IsRuled, dealing};

    ghost holds = { λ key. IsRuled S.Served key.solo.value.given key.passes };

    ghost first = { λ key. dealing key.solo.value.given key.solo.value.seen 0 key.passes };
}

/// A seat draws a ticket.
pub struct Draw;

impl<S, T, O, A, E> Play<Slot<S, O, A>, SeatView<T, O, A, E>> for Draw {
    ghost use Rattle.turn_desk.specs.Rule.{Drew};

    ghost then = { Drew };
}

/// A seat looks whether its turn has come, and takes the state if so.
pub struct Look<S> {
    of: PhantomData<S>,
}

impl<S: Served> Play<Slot<S, S::Op, S::Answer>, SeatView<S::Start, S::Op, S::Answer, S::Entry>>
    for Look<S> {
    ghost use Rattle.turn_desk.specs.Rule.{Looked};

    ghost then = { Looked S.Served };
}

/// A seat gives the state back, which took one more turn.
pub struct GiveBack<S> {
    of: PhantomData<S>,
}

impl<S: Served> Play<Slot<S, S::Op, S::Answer>, SeatView<S::Start, S::Op, S::Answer, S::Entry>>
    for GiveBack<S> {
    ghost use Rattle.turn_desk.specs.Rule.{GaveBack};

    ghost then = { GaveBack S.Served };
}

/// A seat hands a number on to a new one.
pub struct Deal;

impl<T, O, A, E> Split<SeatView<T, O, A, E>> for Deal {
    ghost use Rattle.turn_desk.specs.Rule.{dealer, dealt};

    ghost left = { dealer };

    ghost right = { dealt };
}

/// A seat takes another's numbers.
pub struct Gather;

impl<T, O, A, E> Join<SeatView<T, O, A, E>> for Gather {
    ghost use Rattle.turn_desk.specs.Rule.{gathered, spent_view};

    ghost both = { gathered };

    ghost spent = { spent_view };
}

impl<O, A> Drop for LastTurn<O, A> {
    fn drop(self) {
        let LastTurn { op: _, answer: _ } = self;
    }
}

impl<S: Served> Drop for DeskKey<S> {
    fn drop(self) {
        let DeskKey { solo: _, passes: _ } = self;
    }
}

/// A seat at the table of a desk.
pub type DeskSeat<S> = Seat<
    Slot<S, <S as Served>::Op, <S as Served>::Answer>,
    SeatView<<S as Served>::Start, <S as Served>::Op, <S as Served>::Answer, <S as Served>::Entry>,
>;
