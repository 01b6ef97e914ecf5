// What no proof says: that turns and threads come to an end, with memory.
use crate::callers::repeat;
use crate::counter::Counter;
use crate::shelf::Book;
use crate::threads::{count_together, give_back_late, read_at_a_chair};
use std::test::Fail;
use turn_desk::{Desk, SoloDesk};

// A book of which each line is its number, doubled.
#[derive(Drop)]
struct Doubles {
    reads: u64,
}

impl Book for Doubles {
    ghost use Rattle.std.specs.Prelude.{◌+◌, ◌%◌, ◌^◌};

    ghost line_at = { λ _ n. (n + n) % 2 ^ 64 };

    fn read(&mut self, place: u64) -> u64 {
        self.reads = self.reads.wrapping_add(1);
        place.wrapping_add(place)
    }
}

#[test]
fn an_owner_takes_turns(rt: HostRuntime) -> Result<(), Fail> {
    let counter = Counter::new(rt.alloc(), 5);
    let mut desk = SoloDesk::new(rt.alloc(), counter).ok().ok_or("memory")?;
    assert_eq!(rt; desk.turn(2), Some(7));
    assert_eq!(rt; desk.turn(4), Some(11));
    repeat(&mut desk, 3, 10_000);
    let counter = desk.into_served();
    assert_eq!(rt; counter.count, 30_011);
    assert_eq!(rt; counter.log.len(), 10_002);
    Ok(())
}

#[test]
fn a_desk_waits_for_each_pass(rt: HostRuntime) -> Result<(), Fail> {
    let counter = Counter::new(rt.alloc(), 0);
    let (out, counter) = give_back_late(rt.alloc(), counter).ok_or("memory")?;
    assert_eq!(rt; out, 1);
    assert!(rt; counter.log.is_empty());
    Ok(())
}

#[test]
fn a_chair_reads_a_shelf(rt: HostRuntime) -> Result<(), Fail> {
    let (line, book) = read_at_a_chair(&rt, rt.alloc(), Doubles { reads: 0 }, 21).ok_or("memory")?;
    assert_eq!(rt; line, 42);
    assert_eq!(rt; book.reads, 4);
    Ok(())
}

#[test]
fn two_threads_take_ten_thousand_turns_each(rt: HostRuntime) -> Result<(), Fail> {
    let counter = Counter::new(rt.alloc(), 100);
    let counter = count_together(&rt, rt.alloc(), counter, 900, (3, 4), 10_000).ok_or("memory")?;
    assert_eq!(rt; counter.count, 71_000);
    assert_eq!(rt; counter.log.len(), 20_001);
    assert_eq!(rt; counter.log[0], 900);
    let (mut threes, mut fours) = (0u32, 0u32);
    for &n in &counter.log {
        threes = threes.saturating_add(u32::from(n == 3));
        fours = fours.saturating_add(u32::from(n == 4));
    }
    assert_eq!(rt; (threes, fours), (10_000, 10_000));
    Ok(())
}
