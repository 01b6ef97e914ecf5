// Calls at the elements of two slices at once.
ghost use Rattle.std.specs.Prelude.{◌≡◌, ◌<◌, ◌+◌, ◌^◌, length};
ghost use Rattle.std.specs.Fork.{AcceptsAt, AcceptsEach, ChangesAt, ChangesEach};
ghost use Rattle.desk_participants.specs.Both.{AcceptsFrom, ChangesFrom, LeavesEach};
ghost use denote.Param.Send.{IsSend, IsSync};

use std::thread::{Threads, for_each_mut, join_mut};

// Calls `f` at one element, at this place.
fn at_one<T, F: Fn(usize, &mut T)>(f: &F, place: usize, element: &mut T)
    requires { AcceptsAt F.Fn f.now place element.old }
    ensures { ChangesAt F.Fn f.now place element.old element.new }
{
    f(place, element);
}

// Calls `f` at each element of a part that begins at this place.
fn for_each_from<R: Threads + Sync, T: Send, F: Fn(usize, &mut T) + Sync>(
    rt: &R,
    from: usize,
    part: &mut [T],
    f: &F,
)
    requires room { from + length part.old < 2 ^ 64 }
    requires accepts { AcceptsFrom F.Fn f.now from part.old }
    ensures { ChangesFrom F.Fn f.now from part.old part.new }
{
    let call = move |i: usize, element: &mut T|
        requires { (from + i < 2 ^ 64) × AcceptsAt F.Fn f.now (from + i) element.now }
        ensures { ChangesAt F.Fn f.entry.now (from + i) element.entry.now element.exit.now }
    { at_one(f, from + i, element) };
    for_each_mut(rt, part, part.len().max(1), &call);
}

// Calls `g` at each element of the one slice, and `f` at each of a part: in the new thread, or last where none can be made.
fn beside_part<
    R: Threads + Sync,
    T: Send,
    U: Send,
    F: Fn(usize, &mut T) + Sync,
    G: Fn(usize, &mut U) + Sync,
>(rt: &R, from: usize, part: &mut [T], b: &mut [U], f: &F, g: &G)
    requires room { from + length part.old < 2 ^ 64 }
    requires front { AcceptsFrom F.Fn f.now from part.old }
    requires back { AcceptsEach G.Fn g.now b.old }
    ensures front { ChangesFrom F.Fn f.now from part.old part.new }
    ensures back { ChangesEach G.Fn g.now b.old b.new }
{
    let mut front = ||
        requires { IsSync R.row × IsSync F.row × IsSend T.row × (from + length part.now < 2 ^ 64)
            × AcceptsFrom F.Fn f.now from part.now }
        ensures { ChangesFrom F.Fn f.entry.now from part.entry.now part.exit.now }
    { for_each_from(rt, from, part, f) };
    let mut back = ||
        requires { IsSync R.row × IsSync G.row × IsSend U.row × AcceptsEach G.Fn g.now b.now }
        ensures { LeavesEach G.Fn g.entry.now b.entry.now b.exit.now }
    { for_each_mut(rt, b, b.len().max(1), g) };
    join_mut(rt, &mut front, &mut back);
}

// Calls `f` at each element of two parts, and `g` at each of the other slice.
fn beside_both_parts<
    R: Threads + Sync,
    T: Send,
    U: Send,
    F: Fn(usize, &mut T) + Sync,
    G: Fn(usize, &mut U) + Sync,
>(rt: &R, first: &mut [T], half: usize, rest: &mut [T], b: &mut [U], f: &F, g: &G)
    requires room { half + length rest.old < 2 ^ 64 }
    requires few { length first.old < 2 ^ 64 }
    requires first { AcceptsFrom F.Fn f.now 0 first.old }
    requires rest { AcceptsFrom F.Fn f.now half rest.old }
    requires back { AcceptsEach G.Fn g.now b.old }
    ensures first { ChangesFrom F.Fn f.now 0 first.old first.new }
    ensures rest { ChangesFrom F.Fn f.now half rest.old rest.new }
    ensures back { ChangesEach G.Fn g.now b.old b.new }
{
    let mut ahead = ||
        requires { IsSync R.row × IsSync F.row × IsSend T.row × (0 + length first.now < 2 ^ 64)
            × AcceptsFrom F.Fn f.now 0 first.now }
        ensures { ChangesFrom F.Fn f.entry.now 0 first.entry.now first.exit.now }
    { for_each_from(rt, 0, first, f) };
    let mut beside = ||
        requires { IsSync R.row × IsSync F.row × IsSync G.row × IsSend T.row × IsSend U.row
            × (half + length rest.now < 2 ^ 64) × AcceptsFrom F.Fn f.now half rest.now
            × AcceptsEach G.Fn g.now b.now }
        ensures { ChangesFrom F.Fn f.entry.now half rest.entry.now rest.exit.now
            × LeavesEach G.Fn g.entry.now b.entry.now b.exit.now }
    { beside_part(rt, half, rest, b, f, g) };
    join_mut(rt, &mut ahead, &mut beside);
}

/// Calls `f` at each element of the one slice and `g` at each of the other, each in a thread of its own where one can be made.
/// Where one can't be made its calls come behind another's, but from two elements of the one slice on there is always one at
/// which `f` is called while `g` is called at those of the other.
pub fn for_each_of_both<
    R: Threads + Sync,
    T: Send,
    U: Send,
    F: Fn(usize, &mut T) + Sync,
    G: Fn(usize, &mut U) + Sync,
>(rt: &R, a: &mut [T], b: &mut [U], f: &F, g: &G)
    requires front { AcceptsEach F.Fn f.now a.old }
    requires back { AcceptsEach G.Fn g.now b.old }
    ensures front { ChangesEach F.Fn f.now a.old a.new }
    ensures back { ChangesEach G.Fn g.now b.old b.new }
{
    let half = a.len() / 2;
    let (first, rest) = a.split_at_mut(half);
    beside_both_parts(rt, first, half, rest, b, f, g);
}
