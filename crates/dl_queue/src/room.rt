// Room for one download more.
ghost use Rattle.std.specs.Prelude.{◌≡◌, ◌==◌, ◌≤◌, ℕ, OnOk, OnErr, Some, if◌then◌else◌};
ghost use Rattle.std.specs.Ordering.{nat_cmp};
ghost use Rattle.std.specs.BTreeMap.{get};
ghost use Rattle.number_list.specs.Order.{NumberOrder};
ghost use Rattle.dl_queue.specs.Held.{IsWider};

use dl_kinds::Gid;
use number_list::NumberList;
use std::alloc::AllocError;
use std::collections::BTreeMap;

/// Raises the bounds of the lists.
pub fn reserve_lists(
    active: &mut NumberList,
    waiting: &mut NumberList,
    ready: &mut NumberList,
    stopped: &mut NumberList,
    bound: usize,
) -> Result<(), AllocError>
    ensures active { IsWider active.old active.new }
    ensures waiting { IsWider waiting.old waiting.new }
    ensures ready { IsWider ready.old ready.new }
    ensures stopped { IsWider stopped.old stopped.new }
    ensures active_ok { OnOk result (bound ≤ active.new.bound) }
    ensures waiting_ok { OnOk result (bound ≤ waiting.new.bound) }
    ensures ready_ok { OnOk result (bound ≤ ready.new.bound) }
    ensures stopped_ok { OnOk result (bound ≤ stopped.new.bound) }
{
    active.reserve(bound)?;
    waiting.reserve(bound)?;
    ready.reserve(bound)?;
    stopped.reserve(bound)
}

/// Gives a gid its number.
pub fn give_number(
    numbers: &mut BTreeMap<u64, usize>,
    gid: Gid,
    number: usize,
) -> Result<(), AllocError>
    ensures ok { OnOk result ((other : ℕ) → get nat_cmp numbers.new other
        ≡ (if gid.0 == other then Some number else get nat_cmp numbers.old other)) }
    ensures err { OnErr result ((other : ℕ)
        → get nat_cmp numbers.new other ≡ get nat_cmp numbers.old other) }
{
    numbers.insert(gid.0, number)?;
    Ok(())
}
