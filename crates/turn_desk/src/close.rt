// How a desk of several threads ends.
ghost use Rattle.std.specs.Prelude.{◌≡◌, ◌<◌, vec_len};
ghost use Rattle.std.specs.List.{All};
ghost use Rattle.turn_desk.specs.Closes.{Closes};
ghost use Rattle.turn_desk.specs.Passes.{IsPassOf};
ghost use Rattle.turn_desk.specs.Rule.{Gathers, GathersAll, HasAllNumbers, IsGatheringSome, Finishes};

use crate::pass::Pass;
use crate::rule::{DeskSeat, Gather, Slot};
use crate::served::Served;
use crate::turn_desk::TurnDesk;

/// What closing a desk gives.
pub enum Closed<S: Served> {
    /// All passes came.
    Whole {
        served: S,
    },
    /// So many passes are still out.
    StillOut {
        out: u32,
        desk: TurnDesk<S>,
        passes: Vec<Pass<S>>,
    },
}

impl<S: Served> TurnDesk<S> {
    // Takes the numbers of all others into this pass.
    fn take_in(&self, pass: Pass<S>, all: DeskSeat<S>) -> DeskSeat<S>
        requires pass { IsPassOf self.now pass }
        requires table { all.table_id ≡ self.now.desk_id }
        requires all { IsGatheringSome self.now.given all.me }
        ensures table { result.table_id ≡ self.now.desk_id }
        ensures gathered { Gathers self.now.given pass all.me result.me }
    {
        let mut seat = pass.into_seat();
        self.table.shared.join_seat::<Gather>(&mut seat, all);
        seat
    }

    // One seat with the numbers of all passes.
    fn gather(&self, mut passes: Vec<Pass<S>>) -> DeskSeat<S>
        requires some { 0 < vec_len passes }
        requires of_desk { All (IsPassOf self.now) passes.items }
        ensures table { result.table_id ≡ self.now.desk_id }
        ensures gathered { GathersAll self.now.given passes.items result.me }
    {
        let Some(last) = passes.pop() else {
            unreachable!()
        };
        let mut all = last.into_seat();
        while let Some(pass) = passes.pop() {
            all = self.take_in(pass, all);
        }
        passes.destroy_empty();
        all
    }

    // The state, of a desk of which this seat has all numbers.
    fn finish(self, seat: DeskSeat<S>) -> S
        requires table { seat.table_id ≡ self.desk_id }
        requires all { HasAllNumbers self seat.me }
        ensures { Finishes S.Served self seat.me result }
    {
        let TurnDesk {
            table,
            passes: _,
            gates: _,
            lobby: _,
        } = self;
        let mut closed = table.close_with(seat);
        let Slot { served, last: _ } = closed.take(0);
        closed.free();
        let Some(served) = served else { unreachable!() };
        served
    }

    /// The state, where all passes came. StillOut comes exactly where fewer did, and gives them back.
    pub fn close(self, passes: Vec<Pass<S>>) -> Closed<S>
        requires of_desk { All (IsPassOf self) passes.items }
        ensures { Closes S.Served self passes result }
    {
        if passes.len() < self.passes as usize {
            return Closed::StillOut {
                out: self.passes - passes.len() as u32,
                desk: self,
                passes,
            };
        }
        let seat = self.gather(passes);
        Closed::Whole {
            served: self.finish(seat),
        }
    }
}
