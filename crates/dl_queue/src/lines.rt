// Loops over lists of numbers, and what is kept of a number.
ghost use Rattle.std.specs.Prelude.{◌≡◌, ◌≤◌, ◌<◌, ◌∷◌, ℕ, [], true, if◌then◌else◌, Option, find, length, remove, unwrap_or};
ghost use Rattle.number_list.specs.Order.{NumberOrder, lists_number, number_place, NoneTwice};
ghost use Rattle.dl_queue.specs.Held.{gid_numbered, standing_at, stands_ready, AreNumbersOf};

use crate::Added;
use dl_kinds::{Gid, Status};
use number_list::{NumberList, Numbers};

/// The gid of a number.
pub fn gid_of(added: &[Added], number: usize) -> Gid
    requires counts { 0 < number }
    requires within { number ≤ length added.now }
    ensures { result ≡ gid_numbered added.now number }
{
    added[number - 1].gid
}

/// Where the download of a number stands.
pub fn standing_of(standings: &[Option<Status>], number: usize) -> Option<Status>
    requires counts { 0 < number }
    requires within { number ≤ length standings.now }
    ensures { result ≡ standing_at standings.now number }
{
    standings[number - 1]
}

/// Whether a download waits that isn't paused.
pub fn is_ready(standing: Option<Status>) -> bool
    ensures { result ≡ stands_ready standing }
{
    match standing {
        Some(Status::Waiting) => true,
        _ => false,
    }
}

/// The first of the numbers whose download waits and isn't paused, or 0 where there is none.
pub fn first_ready(standings: &[Option<Status>], numbers: Numbers<'_>) -> usize
    requires { AreNumbersOf standings.now numbers }
    ensures { result ≡ unwrap_or
        (find (λ number. stands_ready (standing_at standings.now number)) numbers.entry) 0 }
{
    for number in numbers {
        if is_ready(standing_of(standings, number)) {
            return number;
        }
    }
    0
}

/// Takes a number out of a list, where it is in it.
pub fn remove_if(list: &mut NumberList, number: usize, listed: bool)
    requires { listed ≡ true → lists_number list.old.order number ≡ true }
    ensures { list.new ≡ (if listed
        then record list.old { order = remove list.old.order (number_place list.old.order number) } else list.old) }
{
    if listed {
        list.remove(number);
    }
}

/// Each of the numbers stands so.
pub fn mark_all(standings: &mut Vec<Option<Status>>, numbers: Numbers<'_>, standing: Option<Status>)
    requires { AreNumbersOf standings.old.items numbers }
    ensures marked { (number : ℕ) → 0 < number → standing_at standings.new.items number
        ≡ (if lists_number numbers.entry number
        then standing
        else standing_at standings.old.items number) }
    ensures len { length standings.new.items ≡ length standings.old.items }
{
    for number in numbers {
        standings[number - 1] = standing;
    }
}

/// Puts the numbers into a list that has none.
pub fn fill(list: &mut NumberList, numbers: Numbers<'_>)
    requires none { list.old.order ≡ [] }
    requires apart { NoneTwice (0 ∷ numbers) }
    requires within { (number : ℕ) → lists_number numbers number ≡ true → number < list.old.bound }
    ensures { list.new ≡ record list.old { order = numbers.entry } }
{
    for number in numbers {
        list.push_back(number);
    }
}
