// Threads at one desk.
ghost use Rattle.std.specs.Prelude.{◌≡◌, ◌<◌, [], IfSome};
ghost use Rattle.tests_desk.specs.Shared.{MayWork, WorkedOn, SharedOut};

use crate::callers::repeat;
use crate::counter::Counter;
use crate::shelf::{Book, Shelf};
use std::alloc::Global;
use std::snapshot::Snapshot;
use std::sync::Wait;
use std::thread;
use std::thread::{Promise, Threads};
use turn_desk::{
    Closed, Desk, Pass, SoloDesk, TurnDesk, a_sole_owner_took_all, own_turns_keep_their_order,
};

// What a thread promises of its pass.
struct WorksOn {
    desk: Snapshot<TurnDesk<Counter>>,
    pass: Snapshot<Pass<Counter>>,
    op: u64,
    times: u32,
}

impl Drop for WorksOn {
    fn drop(self) {
        let WorksOn {
            desk: _,
            pass: _,
            op: _,
            times: _,
        } = self;
    }
}

impl Promise<Pass<Counter>> for WorksOn {
    ghost kept_by = { λ p r. WorkedOn p.desk.value p.pass.value p.op p.times r };
}

// Takes so many turns of one operation with this pass.
fn work<R: Wait>(
    rt: &R,
    desk: &TurnDesk<Counter>,
    pass: Pass<Counter>,
    op: u64,
    times: u32,
) -> Pass<Counter>
    requires { MayWork desk.now pass op }
    ensures { WorkedOn desk.now pass op times result }
{
    let mut chair = desk.chair(rt, pass);
    repeat(&mut chair, op, times);
    chair.leave()
}

// Two passes work, in two threads where one can be started.
fn work_both<R: Threads + Wait + Sync>(
    rt: &R,
    desk: &TurnDesk<Counter>,
    passes: (Pass<Counter>, Pass<Counter>),
    ops: (u64, u64),
    times: u32,
) -> (Pass<Counter>, Pass<Counter>)
    requires one { MayWork desk.now passes.0 ops.0 }
    requires two { MayWork desk.now passes.1 ops.1 }
    ensures one { WorkedOn desk.now passes.0 ops.0 times result.0 }
    ensures two { WorkedOn desk.now passes.1 ops.1 times result.1 }
{
    let (one, two) = passes;
    let (first, second) = ops;
    thread::scope(
        thread::scope_env(),
        rt,
        |scope| -> (Pass<Counter>, Pass<Counter>)
            requires one { MayWork desk.now one first }
            requires two { MayWork desk.now two second }
            ensures one { WorkedOn desk.entry.now one first times result.0 }
            ensures two { WorkedOn desk.entry.now two second times result.1 }
        {
            let promise = WorksOn {
                desk: Snapshot::of(desk),
                pass: Snapshot::of(&one),
                op: first,
                times,
            };
            match scope.spawn_with(promise, move || work(rt, desk, one, first, times)) {
                Ok(child) => {
                    let other = work(rt, desk, two, second, times);
                    (child.join(rt), other)
                }
                Err(refused) => ((refused.value)(), work(rt, desk, two, second, times)),
            }
        },
    )
}

/// One turn of its owner, and then so many turns of each of two passes, in two threads where one can be
/// started. The counter comes back unless memory was wanting.
pub fn count_together<R: Threads + Wait + Sync>(
    rt: &R,
    alloc: Global,
    counter: Counter,
    opening: u64,
    ops: (u64, u64),
    times: u32,
) -> Option<Counter>
    requires new { counter.log.items ≡ [] }
    requires lawful { (opening < 1000) × (ops.0 < 1000) × (ops.1 < 1000) }
    ensures { IfSome result (SharedOut opening ops.0 ops.1 times) }
{
    let Ok(mut back) = Vec::with_capacity(alloc, 2) else {
        return None;
    };
    let Ok(mut solo) = SoloDesk::new(alloc, counter) else {
        return None;
    };
    solo.turn(opening);
    a_sole_owner_took_all(&solo);
    own_turns_keep_their_order::<Counter>();
    let Ok((desk, mut passes)) = TurnDesk::start(alloc, solo, 2) else {
        return None;
    };
    let Some(two) = passes.pop() else {
        unreachable!()
    };
    let Some(one) = passes.pop() else {
        unreachable!()
    };
    let (one, two) = work_both(rt, &desk, (one, two), ops, times);
    back.push_reserved(one);
    back.push_reserved(two);
    match desk.close(back) {
        Closed::Whole { served } => Some(served),
        Closed::StillOut { .. } => unreachable!(),
    }
}

/// Closes a desk of three passes with two of them, and then with all. The number is how many were missing.
pub fn give_back_late(alloc: Global, counter: Counter) -> Option<(u32, Counter)>
    requires new { counter.log.items ≡ [] }
    ensures { IfSome result (λ r. r.0 ≡ 1) }
{
    let Ok(solo) = SoloDesk::new(alloc, counter) else {
        return None;
    };
    let Ok((desk, mut passes)) = TurnDesk::start(alloc, solo, 3) else {
        return None;
    };
    let Some(last) = passes.pop() else {
        unreachable!()
    };
    match desk.close(passes) {
        Closed::Whole { .. } => unreachable!(),
        Closed::StillOut {
            out,
            desk,
            mut passes,
        } => {
            passes.push_reserved(last);
            match desk.close(passes) {
                Closed::Whole { served } => Some((out, served)),
                Closed::StillOut { .. } => unreachable!(),
            }
        }
    }
}

/// Reads a line of a shelf through the only pass of a desk, and hands the shelf back.
pub fn read_at_a_chair<R: Wait, B: Book + Drop>(
    rt: &R,
    alloc: Global,
    book: B,
    place: u64,
) -> Option<(u64, B)>
    ensures { IfSome result (λ r. r.0 ≡ B.line_at book place) }
{
    let Ok(solo) = SoloDesk::new(alloc, Shelf::new(book)) else {
        return None;
    };
    let Ok((desk, mut passes)) = TurnDesk::start(alloc, solo, 1) else {
        return None;
    };
    let Some(pass) = passes.pop() else {
        unreachable!()
    };
    let mut chair = desk.chair(rt, pass);
    repeat(&mut chair, place, 3);
    let line = chair.turn(place);
    passes.push_reserved(chair.leave());
    match desk.close(passes) {
        Closed::Whole { served } => Some((line, served.into_book())),
        Closed::StillOut { .. } => unreachable!(),
    }
}
