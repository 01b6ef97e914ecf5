// A pass at its desk.
ghost use Rattle.std.specs.Prelude.{◌≡◌};
ghost use Rattle.turn_desk.specs.Passes.{ChairView, IsPassOf, sight_at};

use crate::desk::Desk;
use crate::pass::Pass;
use crate::served::Served;
use crate::turn_desk::{NAPS, TurnDesk};
use std::marker::Model;
use std::sync::Wait;

/// A pass at its desk: it takes turns, each of which waits for those before it.
pub struct Chair<'a, S: Served, R: Wait> {
    desk: &'a TurnDesk<S>,
    rt: &'a R,
    pass: Pass<S>,
    // So often it sleeps before it draws a ticket.
    naps: u32,
}

impl<'a, S: Served, R: Wait> Model for Chair<'a, S, R> {
    ghost Value = { ChairView S.Start S.Op S.Answer S.Entry };

    ghost view = { λ c. record { desk = c.desk.now; pass = c.pass } };

    ghost invariant = { λ c. IsPassOf c.desk.now c.pass };
}

impl<S: Served> TurnDesk<S> {
    /// A pass of this desk takes its place.
    pub fn chair<'a, R: Wait>(&'a self, rt: &'a R, pass: Pass<S>) -> Chair<'a, S, R>
        requires of_desk { IsPassOf self.now pass }
        ensures pass { result.pass ≡ pass }
        ensures desk { result.desk ≡ self.now }
    {
        Chair {
            desk: self,
            rt,
            pass,
            naps: NAPS,
        }
    }

    /// The same for one whose turns are few and short: while others have turns, it draws its ticket all the same, and so comes
    /// next behind those that drew theirs.
    pub fn pressing_chair<'a, R: Wait>(&'a self, rt: &'a R, pass: Pass<S>) -> Chair<'a, S, R>
        requires of_desk { IsPassOf self.now pass }
        ensures pass { result.pass ≡ pass }
        ensures desk { result.desk ≡ self.now }
    {
        Chair {
            desk: self,
            rt,
            pass,
            naps: 0,
        }
    }
}

impl<'a, S: Served, R: Wait> Chair<'a, S, R> {
    /// The pass, for another time.
    pub fn leave(self) -> Pass<S>
        ensures pass { result ≡ self.entry.pass }
        ensures of_desk { IsPassOf self.entry.desk result }
    {
        let Chair {
            desk: _,
            rt: _,
            pass,
            naps: _,
        } = self;
        pass
    }
}

impl<'a, S: Served, R: Wait> Desk<S> for Chair<'a, S, R> {
    ghost sight = { λ c. sight_at c.desk c.pass };

    ghost desk_id = { λ c. c.desk.desk_id };

    fn turn(&mut self, op: S::Op) -> S::Answer {
        let desk = self.desk;
        let rt = self.rt;
        let naps = self.naps;
        desk.take_turn(rt, &mut self.pass.seat, naps, op)
    }
}
