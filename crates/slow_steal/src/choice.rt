// The claim that blocks are taken of.
ghost use Rattle.std.specs.Prelude.{◌≡◌, ◌↔◌, ◌+◌, ◌<◌, ◌^◌, All, IsTrue, IsNone, IfSome, MatchOption};
ghost use Rattle.slow_steal.specs.Theft.{MayLose, IsStolenBefore, IsSteal, cross_weight};

use crate::Steal;
use dl_kinds::{ClaimView, Moment};

// Whether there is something to take of the claim.
fn may_lose(claim: &ClaimView) -> bool
    ensures { IsTrue result ↔ MayLose claim.now }
{
    claim.able && claim.own.count >= 2
}

// The numerator of a claim's slowness times the denominator of another's.
fn weight(claim: &ClaimView, other: &ClaimView, now: Moment) -> u128
    ensures { result ≡ cross_weight now.0 claim.now other.now }
{
    let waited = now.0.saturating_sub(claim.since.0);
    claim.unlanded as u128 * waited as u128 * (other.landed as u128 + 1)
}

// Whether a claim is stolen of before the one that was found so far.
fn goes_before(claim: &ClaimView, found: Option<ClaimView>, now: Moment) -> bool
    ensures { IsTrue result ↔ MatchOption found (Unit {0}) (λ other. IsStolenBefore now.0 claim.now other) }
{
    let Some(other) = found else {
        return true;
    };
    let weight_here = weight(claim, &other, now);
    let weight_there = weight(&other, claim, now);
    weight_here > weight_there || weight_here == weight_there && claim.id < other.id
}

/// The later half of the own run of the slowest claim that may lose blocks: one that is able, with an own run of at
/// least two. A claim's slowness is its unlanded blocks times the time since its grant, over its landed blocks and one
/// more. Of equally slow claims it is the one with the lowest number.
pub fn victim(claims: &[ClaimView], now: Moment) -> Option<Steal>
    requires { All (λ claim. claim.own.first + claim.own.count < 2 ^ 32) claims.now }
    ensures steal { IfSome result (λ steal. IsSteal now.0 claims.now steal) }
    ensures none { IsNone result ↔ All (λ claim. ¬ MayLose claim) claims.now }
{
    let mut found: Option<ClaimView> = None;
    for claim in claims {
        if may_lose(claim) && goes_before(claim, found, now) {
            found = Some(*claim);
        }
    }
    let claim = found?;
    Some(Steal {
        victim: claim.id,
        run: claim.own.later_half(),
    })
}
