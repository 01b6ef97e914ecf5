// The downloads whose gids begin with a key's digits.
ghost use Rattle.std.specs.Prelude.{◌≡◌, ◌+◌, ◌*◌, ◌≤◌, ◌<◌, Option, None, Some, length, if◌then◌else◌};
ghost use Rattle.std.specs.Option.{option_or};
ghost use Rattle.dl_queue.specs.Calls.{names_gid};
ghost use Rattle.dl_queue.specs.Held.{gid_numbered, AreNumbersOf};
ghost use Rattle.dl_queue.specs.Named.{AreNamed};

use crate::lines::gid_of;
use crate::{Added, MAX_DOWNLOADS};
use dl_kinds::{Gid, GidKey};
use number_list::Numbers;

/// How many downloads of a list a key names, and the number of one of them.
#[derive(Clone, Copy)]
pub struct Named {
    pub count: usize,
    pub number: Option<usize>,
}

impl Named {
    /// Those of two lists.
    pub fn and(self, other: Named) -> Named
        requires first { self.count ≤ 2 * MAX_DOWNLOADS }
        requires second { other.count ≤ MAX_DOWNLOADS }
        ensures count { result.count ≡ self.count + other.count }
        ensures number { result.number ≡ option_or self.number other.number }
    {
        Named {
            count: self.count + other.count,
            number: self.number.or(other.number),
        }
    }
}

fn is_named(key: GidKey, gid: Gid) -> bool
    ensures { result ≡ names_gid key gid }
{
    key.names(gid)
}

/// Those of a list.
pub fn all_named(added: &[Added], numbers: Numbers<'_>, key: GidKey) -> Named
    requires within { AreNumbersOf added.now numbers }
    requires few { length numbers ≤ MAX_DOWNLOADS }
    ensures named { AreNamed added.now key numbers.entry result }
    ensures few { result.count ≤ MAX_DOWNLOADS }
{
    let mut count = 0;
    let mut one = None;
    for number in numbers {
        if is_named(key, gid_of(added, number)) {
            count += 1;
            one = Some(number);
        }
    }
    Named { count, number: one }
}
