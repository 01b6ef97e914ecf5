// Which blocks a download is granted next.
ghost use Rattle.std.specs.Prelude.{◌≤◌, IfNone, IfSome};
ghost use Rattle.one_download.specs.Grants.{HasNoChoice, HasNoTheft, IsBlockChoice, IsTheftChoice};
ghost use Rattle.segment_claim.specs.Free.{HasNoFreeClaim};
ghost use Rattle.segment_claim.specs.Search.{IsWithinPayload};
ghost use Rattle.segment_claim.specs.Situation.{FitTogether, situation_of};

use crate::Choice;
use dl_kinds::Moment;
use mirror_blame::Marks;
use piece_table::Table;
use segment_claim::{Claims, Found, Limits, Views, steals_are_of_claims};
use slow_steal::victim;

// What is stolen where nothing is free.
fn theft(
    claims: &Claims,
    table: &Table,
    marks: &Marks,
    limits: &Limits,
    now: Moment,
) -> Option<Choice>
    requires fit { FitTogether claims.now table.now marks.now limits.now }
    requires room { 1 ≤ claims.now.spare }
    requires nothing_free { HasNoFreeClaim
        (situation_of claims.now table.now marks.now limits.now) }
    ensures choice { IfSome result
        (IsTheftChoice (situation_of claims.now table.now marks.now limits.now) now.0) }
    ensures within { IfSome result (λ choice.
        IsWithinPayload (situation_of claims.now table.now marks.now limits.now) choice.run) }
    ensures none { IfNone result
        (HasNoTheft (situation_of claims.now table.now marks.now limits.now) now.0) }
{
    steals_are_of_claims();
    let _ = claims.standing();
    let mut views = Views::new();
    claims.views(table, marks, limits, &mut views);
    let Some(steal) = victim(views.as_slice(), now) else {
        return None;
    };
    match claims.mirror_for(steal.run, table, marks, limits) {
        Some(mirror) => Some(Choice {
            run: steal.run,
            mirror,
            victim: Some(steal.victim),
        }),
        None => None,
    }
}

/// The blocks and the mirror of the next claim: where fewer claims stand than the payload is split into, the free
/// claim, and without one a theft.
pub fn choose(
    claims: &Claims,
    table: &Table,
    marks: &Marks,
    limits: &Limits,
    now: Moment,
) -> Option<Choice>
    requires fit { FitTogether claims.now table.now marks.now limits.now }
    requires room { 1 ≤ claims.now.spare }
    ensures choice { IfSome result
        (IsBlockChoice (situation_of claims.now table.now marks.now limits.now) now.0) }
    ensures within { IfSome result (λ choice.
        IsWithinPayload (situation_of claims.now table.now marks.now limits.now) choice.run) }
    ensures none { IfNone result
        (HasNoChoice (situation_of claims.now table.now marks.now limits.now) now.0) }
{
    if claims.standing() >= limits.split {
        return None;
    }
    match claims.free_claim(table, marks, limits) {
        Some(Found { run, mirror }) => Some(Choice {
            run,
            mirror,
            victim: None,
        }),
        None => theft(claims, table, marks, limits, now),
    }
}
