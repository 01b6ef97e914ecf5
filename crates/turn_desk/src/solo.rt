// The desk of one owner.
ghost use Rattle.std.specs.Prelude.{◌≡◌, ◌%◌, ◌^◌, [], length, IfOk, IfErr};
ghost use Rattle.turn_desk.specs.declared.turn.Sight.{Sight};
ghost use Rattle.turn_desk.specs.Sights.{Knows};
ghost use Rattle.turn_desk.specs.States.{given_of, IsAt, IsSolo};
ghost use Rattle.turn_desk.specs.Solo.{first_sight, with_turn, turn_told, no_desk, Recorded};

use crate::desk::Desk;
use crate::served::Served;
use crate::turn::Sight;
use atomic_table::{Play, Seat, Table, TableRule};
use std::alloc::{AllocError, Global};
use std::marker::{Model, PhantomData};
use std::snapshot::Snapshot;

/// A turn as its log is told of it.
pub struct OneTurn<S, O, A> {
    pub before: Snapshot<S>,
    pub op: Snapshot<O>,
    pub answer: Snapshot<A>,
    pub after: Snapshot<S>,
}

impl<S, O, A> Drop for OneTurn<S, O, A> {
    fn drop(self) {
        let OneTurn {
            before: _,
            op: _,
            answer: _,
            after: _,
        } = self;
    }
}

/// The table of a single seat needs no rule. Its key is the state at the start.
pub struct NoRule;

impl<S: Served> TableRule<
    OneTurn<S, S::Op, S::Answer>,
    Sight<S::Start, S::Op, S::Answer, S::Entry>,
    Snapshot<S>,
> for NoRule {
    ghost holds = { λ _ _. Unit {0} };

    ghost first = { λ key. first_sight (given_of S.Served key.value) };
}

/// The step that records a turn.
pub struct Records<S> {
    of: PhantomData<S>,
}

impl<S: Served> Play<OneTurn<S, S::Op, S::Answer>, Sight<S::Start, S::Op, S::Answer, S::Entry>>
    for Records<S> {
    ghost then = { Recorded S.Served };
}

/// The turns of a desk of one owner: the view of the only seat of a table.
pub struct TurnLog<S: Served> {
    table: Table<
        OneTurn<S, S::Op, S::Answer>,
        Sight<S::Start, S::Op, S::Answer, S::Entry>,
        Snapshot<S>,
        NoRule,
        Global,
    >,
    seat: Seat<OneTurn<S, S::Op, S::Answer>, Sight<S::Start, S::Op, S::Answer, S::Entry>>,
}

impl<S: Served> Model for TurnLog<S> {
    ghost Value = { Sight S.Start S.Op S.Answer S.Entry };

    ghost view = { λ d. d.seat.me.0 };

    ghost invariant = { λ d. (d.seat.table_id ≡ d.table.shared.table_id)
        × (d.table.shared.table_id.words ≡ 1) };
}

impl<S: Served> TurnLog<S> {
    fn new(alloc: Global, served: &S) -> Result<TurnLog<S>, AllocError>
        ensures { IfOk result (λ log. log ≡ first_sight (given_of S.Served served.now)) }
    {
        let (table, seat) = Table::of_words(alloc, &[0], &Snapshot::of(served))?;
        Ok(TurnLog { table, seat })
    }

    fn record(&mut self, turn: &OneTurn<S, S::Op, S::Answer>)
        ensures { self.new ≡ with_turn self.old (turn_told S.Served self.old turn.now) }
    {
        let table = &self.table;
        table
            .shared
            .compare_exchange_with::<Records<S>>(&mut self.seat, 0, 0, 0, turn);
    }
}

impl<S: Served> Drop for TurnLog<S> {
    fn drop(self) {
        let TurnLog { table: _, seat: _ } = self;
    }
}

/// A desk of one owner, who waits for nobody. Contracts see it as what its owner knows.
#[derive(Drop)]
pub struct SoloDesk<S: Served> {
    pub(crate) served: S,
    pub(crate) log: TurnLog<S>,
    // How many turns there were, modulo 2^64.
    pub(crate) taken: u64,
}

impl<S: Served> Model for SoloDesk<S> {
    ghost Value = { Sight S.Start S.Op S.Answer S.Entry };

    ghost view = { λ d. d.log };

    ghost invariant = { λ d. IsSolo S.Served d.log d.served
        × (d.taken ≡ length d.log.seen % 2 ^ 64) };
}

impl<S: Served> SoloDesk<S> {
    /// A desk for a state that stands for no turns yet.
    pub fn new(alloc: Global, served: S) -> Result<SoloDesk<S>, (S, AllocError)>
        requires { S.stands served [] }
        ensures ok { IfOk result (λ desk. desk ≡ first_sight (given_of S.Served served)) }
        ensures err { IfErr result (λ refused. refused.0 ≡ served) }
    {
        match TurnLog::new(alloc, &served) {
            Ok(log) => Ok(SoloDesk {
                served,
                log,
                taken: 0,
            }),
            Err(error) => Err((served, error)),
        }
    }

    /// The state, after all turns.
    pub fn into_served(self) -> S
        ensures at { IsAt S.Served self.given self.seen result }
        ensures knows { Knows S.relates self }
        ensures own { self.seen ≡ self.own }
    {
        let SoloDesk {
            served,
            log: _,
            taken: _,
        } = self;
        served
    }
}

impl<S: Served> Desk<S> for SoloDesk<S> {
    ghost sight = { λ d. d };

    ghost desk_id = { λ d. no_desk };

    fn turn(&mut self, op: S::Op) -> S::Answer {
        let before = Snapshot::of(&self.served);
        let asked = Snapshot::of(&op);
        let answer = self.served.serve(op);
        let turn = OneTurn {
            before,
            op: asked,
            answer: Snapshot::of(&answer),
            after: Snapshot::of(&self.served),
        };
        self.log.record(&turn);
        self.taken = self.taken.wrapping_add(1);
        answer
    }
}
