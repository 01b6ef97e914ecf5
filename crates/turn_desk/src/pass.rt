// The right to take turns.
ghost use Rattle.std.specs.Prelude.{◌≡◌};
ghost use Rattle.turn_desk.specs.Passes.{PassView};
ghost use Rattle.turn_desk.specs.Rule.{pass_of, IsPlaying};

use crate::rule::DeskSeat;
use crate::served::Served;
use std::marker::Model;

/// The right to take turns at a desk of several threads. It may go from thread to thread.
pub struct Pass<S: Served> {
    pub(crate) seat: DeskSeat<S>,
}

impl<S: Served> Model for Pass<S> {
    ghost Value = { PassView S.Start S.Op S.Answer S.Entry };

    ghost view = { λ p. pass_of p.seat.table_id p.seat.me };

    ghost invariant = { λ p. IsPlaying p.seat.me };
}

impl<S: Served> Drop for Pass<S> {
    fn drop(self) {
        let Pass { seat: _ } = self;
    }
}

impl<S: Served> Pass<S> {
    pub(crate) fn into_seat(self) -> DeskSeat<S>
        ensures view { self ≡ pass_of result.table_id result.me }
        ensures playing { IsPlaying result.me }
    {
        let Pass { seat } = self;
        seat
    }
}
