// The blocks of a run that are whole.
ghost use Rattle.std.specs.Prelude.{◌≡◌, ◌≤◌, ◌<◌, ◌+◌, ◌-◌, ◌++◌, min, vec_len, vec_capacity};
ghost use Rattle.dl_kinds.specs.Plan.{blocks_of};
ghost use Rattle.fetch_session.specs.Blocks.{cut, AreReady};
ghost use Rattle.fetch_session.specs.declared.blocks.TheConstants.{MOST_READY};

use dl_kinds::{Plan, Run};
use std::mem;

/// The most blocks that are ready at once.
pub const MOST_READY: u32 = 64;

/// Where a block begins in the payload, and behind the last one where the payload ends.
pub fn cut(plan: &Plan, block: u32) -> u64
    requires { block ≤ blocks_of plan.now.total plan.now.piece_len }
    ensures value { result ≡ cut plan.now block }
    ensures within { result ≤ plan.now.total }
{
    if block < plan.blocks() {
        plan.block_span(block).0
    } else {
        plan.total
    }
}

/// How many bytes of the blocks from the first one on that may be ready, or of those up to the end, aren't there yet.
pub fn missing(plan: &Plan, first: u32, end: u32, len: usize) -> u64
    requires first { first ≤ end }
    requires end { end ≤ blocks_of plan.now.total plan.now.piece_len }
    requires bounded { cut plan.now first + len ≤ cut plan.now (min (first + MOST_READY) end) }
    ensures value { cut plan.now first + len + result ≡ cut plan.now (min (first + MOST_READY) end) }
{
    let most = first.saturating_add(MOST_READY).min(end);
    cut(plan, most) - cut(plan, first) - len as u64
}

/// The blocks from the first one on that are whole by so many bytes.
pub fn whole_from(plan: &Plan, first: u32, end: u32, len: usize) -> Run
    requires first { first ≤ end }
    requires end { end ≤ blocks_of plan.now.total plan.now.piece_len }
    requires bounded { cut plan.now first + len ≤ cut plan.now (min (first + MOST_READY) end) }
    ensures first { result.first ≡ first }
    ensures ready { AreReady plan.now end result len }
{
    let place = cut(plan, first) + len as u64;
    let most = MOST_READY.min(end - first);
    let mut count = 0;
    while count < most && cut(plan, first + count + 1) <= place {
        count += 1;
    }
    Run { first, count }
}

/// The first bytes, in their buffer. The rest goes to the other buffer, which has room for it.
pub fn take_front(held: &mut Vec<u8>, mut other: Vec<u8>, len: usize) -> Vec<u8>
    requires len { len ≤ vec_len held.old }
    requires fits { vec_len held.old ≤ vec_capacity other }
    ensures bytes { held.old.items ≡ result.items ++ held.new.items }
    ensures len { vec_len result ≡ len }
    ensures rest { vec_len held.new + len ≡ vec_len held.old }
    ensures capacity { vec_capacity other ≤ vec_capacity held.new }
{
    other.clear();
    other.extend_from_slice(&held[len..]).unwrap();
    let mut front = mem::replace(held, other);
    front.truncate(len);
    front
}
