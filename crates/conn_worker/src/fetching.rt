// Steps of a fetch.
ghost use Rattle.std.specs.Prelude.{◌≡◌, ◌≤◌, min};
ghost use Rattle.conn_worker.specs.Hands.{Fetching, link_at};
ghost use Rattle.conn_worker.specs.Holding.{IsPartInHand, IsReadInHand, IsStepInHand, MayStepOn, gain_of};
ghost use Rattle.conn_worker.specs.declared.hands.Gain.TheVariants.{Open};

use crate::hands::{FetchInHand, Gain, OpenFetch};
use crate::parts::Part;
use fetch_session::{Loss, handed_bytes_are_fetched};
use link_source::Links;
use std::alloc::Global;

/// What a loss comes to.
pub(crate) fn gain_of(loss: Loss) -> Gain
    ensures { result ≡ gain_of loss }
{
    match loss.mark() {
        Some(mark) => Gain::Lost { loss, mark },
        None => Gain::Starved,
    }
}

/// So many bytes of the fetch are read, and the blocks that are ready then are taken.
fn read<L: Links>(alloc: Global, link: &mut L, mut open_fetch: OpenFetch, allow: u32) -> FetchInHand
    requires may { (f : Fetching) × MayStepOn L.tells open_fetch f (link_at L.Links link.old) }
    requires some { 1 ≤ allow }
    requires within { allow ≤ open_fetch.left }
    ensures { (f : Fetching) → MayStepOn L.tells open_fetch f (link_at L.Links link.old)
        → IsReadInHand L.tells allow f (link_at L.Links link.new) result }
{
    handed_bytes_are_fetched();
    match open_fetch.fetch.step(alloc, link, allow) {
        Ok(got) => {
            open_fetch.left -= got.taken;
            if got.ready.count == 0 {
                return FetchInHand {
                    open_fetch,
                    gain: Gain::Open,
                };
            }
            let bytes = open_fetch.fetch.take_blocks();
            FetchInHand {
                open_fetch,
                gain: Gain::Ready {
                    run: got.ready,
                    bytes,
                    last: got.done,
                },
            }
        }
        Err(loss) => {
            open_fetch.left = 0;
            FetchInHand {
                open_fetch,
                gain: gain_of(loss),
            }
        }
    }
}

/// What may still be taken is read, where a part of it brought neither a block nor a loss.
fn read_rest<L: Links>(alloc: Global, link: &mut L, open_fetch: OpenFetch) -> FetchInHand
    requires may { (f : Fetching) × MayStepOn L.tells open_fetch f (link_at L.Links link.old) }
    ensures { (f : Fetching) → MayStepOn L.tells open_fetch f (link_at L.Links link.old)
        → f.gain ≡ Open → IsStepInHand L.tells f (link_at L.Links link.new) result }
{
    let left = open_fetch.left;
    if left == 0 {
        return FetchInHand {
            open_fetch,
            gain: Gain::Open,
        };
    }
    read(alloc, link, open_fetch, left)
}

/// One step of the fetch: a part of what it may take is read, and the blocks that are ready then are taken. A part without a
/// whole block, as where a long head came, is read on.
pub(crate) fn step<L: Links>(
    alloc: Global,
    link: &mut L,
    open_fetch: OpenFetch,
    part: Part,
) -> FetchInHand
    requires may { (f : Fetching) × MayStepOn L.tells open_fetch f (link_at L.Links link.old) }
    requires some { 1 ≤ open_fetch.left }
    ensures { (f : Fetching) → MayStepOn L.tells open_fetch f (link_at L.Links link.old)
        → IsPartInHand L.tells (min part.bytes f.left) f (link_at L.Links link.new) result }
{
    let allow = part.bytes.min(open_fetch.left);
    let FetchInHand { open_fetch, gain } = read(alloc, link, open_fetch, allow);
    match gain {
        Gain::Open => read_rest(alloc, link, open_fetch),
        gain => FetchInHand { open_fetch, gain },
    }
}
