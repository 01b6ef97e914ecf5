// How a desk of several threads is made from one of one owner.
ghost use Rattle.std.specs.Prelude.{◌≡◌, ◌≤◌, [], ◌∷◌, None, Some, IfOk, IfErr, vec_len, vec_capacity};
ghost use Rattle.std.specs.List.{All};
ghost use Rattle.turn_desk.specs.Passes.{IsPassOf, AreNewPasses};
ghost use Rattle.turn_desk.specs.Rule.{IsOneState, Opens, MayDeal, Deals, IsDealingAll, DealsAll};

use crate::gates::{Gates, Lobby};
use crate::pass::Pass;
use crate::rule::{Deal, DeskKey, DeskSeat, Slot};
use crate::served::Served;
use crate::solo::SoloDesk;
use crate::turn_desk::TurnDesk;
use atomic_table::{Refused, Table};
use std::alloc::{AllocError, Global};
use std::snapshot::Snapshot;

// The state, to be laid in the table.
fn slot_of<S, O, A>(alloc: Global, served: S) -> Result<Vec<Slot<S, O, A>>, S>
    ensures ok { IfOk result (λ v. v.items ≡ record { served = Some served; last = None } ∷ []) }
    ensures err { IfErr result (λ s. s ≡ served) }
{
    let mut slots = Vec::new(alloc);
    match slots.push(Slot {
        served: Some(served),
        last: None,
    }) {
        Ok(()) => Ok(slots),
        Err(failed) => {
            slots.destroy_empty();
            let Slot { served, last: _ } = failed.value;
            let Some(served) = served else { unreachable!() };
            Err(served)
        }
    }
}

// The state that was laid in no table.
fn state_of<S, O, A>(mut slots: Vec<Slot<S, O, A>>) -> S
    requires { IsOneState slots.items }
    ensures { slots.items ≡ record { served = Some result; last = None } ∷ [] }
{
    let Some(slot) = slots.pop() else {
        unreachable!()
    };
    slots.destroy_empty();
    let Slot { served, last: _ } = slot;
    let Some(served) = served else { unreachable!() };
    served
}

impl<S: Served> TurnDesk<S> {
    // The table with the state, and the seat that has all numbers to hand on.
    fn open(
        alloc: Global,
        solo: SoloDesk<S>,
        passes: u32,
    ) -> Result<(TurnDesk<S>, DeskSeat<S>), (SoloDesk<S>, AllocError)>
        requires some { 1 ≤ passes }
        ensures ok { IfOk result (λ r. Opens solo passes r.0 r.1.table_id r.1.me) }
        ensures err { IfErr result (λ r. r.0 ≡ solo) }
    {
        let key = DeskKey {
            solo: Snapshot::of(&solo),
            passes,
        };
        let SoloDesk { served, log, taken } = solo;
        let slots = match slot_of(alloc, served) {
            Ok(slots) => slots,
            Err(served) => return Err((SoloDesk { served, log, taken }, AllocError)),
        };
        match Table::new(alloc, &[taken, taken, u64::from(passes)], slots, &key) {
            Ok((table, seat)) => {
                let gates = Gates::new();
                let lobby = Lobby::new();
                Ok((
                    TurnDesk {
                        table,
                        passes,
                        gates,
                        lobby,
                    },
                    seat,
                ))
            }
            Err(Refused { slots }) => {
                let served = state_of(slots);
                Err((SoloDesk { served, log, taken }, AllocError))
            }
        }
    }

    // A pass with the next number.
    fn deal(&self, seat: &mut DeskSeat<S>) -> Pass<S>
        requires table { seat.old.table_id ≡ self.now.desk_id }
        requires dealing { MayDeal self.now.given seat.old.me }
        ensures table { seat.new.table_id ≡ seat.old.table_id }
        ensures dealt { Deals self.now seat.old.me seat.new.me result }
    {
        Pass {
            seat: self.table.shared.split_seat::<Deal>(seat),
        }
    }

    // A pass with each number, in order.
    fn deal_all(&self, mut seat: DeskSeat<S>, passes: u32, mut all: Vec<Pass<S>>) -> Vec<Pass<S>>
        requires table { seat.table_id ≡ self.now.desk_id }
        requires dealing { IsDealingAll self.now.given passes seat.me }
        requires room { (all.items ≡ []) × (passes ≤ vec_capacity all) }
        ensures count { vec_len result ≡ passes }
        ensures dealt { DealsAll self.now passes seat.me result.items }
    {
        for k in 0..passes {
            let _ = k;
            let pass = self.deal(&mut seat);
            all.push_reserved(pass);
        }
        all
    }

    /// A desk for several threads that goes on from one of one owner, and its passes, numbered by their
    /// places. Each pass has seen the owner's turns, which are the first one's own. Where memory is wanting
    /// the owner's desk comes back as it was.
    pub fn start(
        alloc: Global,
        solo: SoloDesk<S>,
        passes: u32,
    ) -> Result<(TurnDesk<S>, Vec<Pass<S>>), (SoloDesk<S>, AllocError)>
        requires some { 1 ≤ passes }
        ensures desk { IfOk result (λ r. (r.0.given ≡ solo.given) × (r.0.passes ≡ passes)) }
        ensures count { IfOk result (λ r. vec_len r.1 ≡ passes) }
        ensures passes { IfOk result (λ r. AreNewPasses solo r.0 r.1.items) }
        ensures of_desk { IfOk result (λ r. All (IsPassOf r.0) r.1.items) }
        ensures err { IfErr result (λ refused. refused.0 ≡ solo) }
    {
        let Ok(room) = Vec::with_capacity(alloc, passes as usize) else {
            return Err((solo, AllocError));
        };
        let (desk, seat) = TurnDesk::open(alloc, solo, passes)?;
        let all = desk.deal_all(seat, passes, room);
        Ok((desk, all))
    }
}
