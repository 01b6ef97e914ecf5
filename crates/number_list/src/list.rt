// A list of numbers that are linked to one another.
ghost use Rattle.std.specs.Prelude.{◌≡◌, ◌==◌, ◌&&◌, ◌||◌, not, ◌≤◌, ◌<◌, ◌+◌, ◌-◌, ◌^◌, ℕ, [], ◌∷◌, ◌++◌, true, false, max, is_ok, if◌then◌else◌, position, drop, insert, remove, length, IfSome, OnOk, slice_get, slice_index, vec_len};
ghost use Rattle.number_list.specs.Order.{NumberOrder, lists_number, number_place, is_listed_or_end, NoneTwice};

use crate::Numbers;
use std::alloc::{AllocError, Global};
use std::marker::Model;

/// A list of distinct numbers from 1 up to a bound, with two words for each number below the bound.
#[derive(Drop)]
pub struct NumberList {
    count: usize,
    bound: usize,
    // The number behind each number and the one before it; at 0 and for 0 the ends of the list.
    next: Vec<usize>,
    previous: Vec<usize>,
}

impl Model for NumberList {
    ghost use Rattle.number_list.specs.Order.{NumberOrder};

    ghost Value = { NumberOrder };

    ghost use Rattle.number_list.specs.Links.{walk, AreLinked};

    ghost view = { λ l. record { order = walk l.count l.next.items 0; bound = l.bound } };

    ghost invariant = { λ l. AreLinked l.next.items l.previous.items l.bound (walk l.count l.next.items 0) };
}

impl NumberList {
    /// A list of no numbers, with the bound 0.
    pub fn new(alloc: Global) -> Self
        ensures { result ≡ record { order = []; bound = 0 } }
    {
        NumberList {
            count: 0,
            bound: 0,
            next: Vec::new(alloc),
            previous: Vec::new(alloc),
        }
    }

    /// How many numbers it has.
    pub fn len(&self) -> usize
        ensures { result ≡ length self.now.order }
    {
        self.count
    }

    /// Whether it has none.
    pub fn is_empty(&self) -> bool
        ensures { result ≡ (length self.now.order == 0) }
    {
        self.count == 0
    }

    /// Raises the bound, where it is lower. No other call takes memory.
    pub fn reserve(&mut self, bound: usize) -> Result<(), AllocError>
        ensures order { self.new.order ≡ self.old.order }
        ensures bound { self.new.bound
            ≡ (if is_ok result then max self.old.bound bound else self.old.bound) }
    {
        if bound <= self.bound {
            return Ok(());
        }
        grow(&mut self.next, bound)?;
        grow(&mut self.previous, bound)?;
        self.bound = bound;
        Ok(())
    }

    /// No number stands twice in it, and 0 doesn't stand in it.
    pub fn numbers_differ(&self)
        ensures { NoneTwice (0 ∷ self.now.order) }
    {
        let _ = &self.count;
    }

    /// The first number.
    pub fn first(&self) -> Option<usize>
        ensures value { result ≡ slice_get self.now.order 0 }
        ensures listed { IfSome result (λ number. lists_number self.now.order number ≡ true) }
    {
        if self.count == 0 {
            return None;
        }
        Some(self.next[0])
    }

    /// The last number.
    pub fn last(&self) -> Option<usize>
        ensures value { result ≡ slice_get self.now.order (length self.now.order - 1) }
        ensures listed { IfSome result (λ number. lists_number self.now.order number ≡ true) }
    {
        if self.count == 0 {
            return None;
        }
        Some(self.previous[0])
    }

    /// The number behind one, or 0 for the last.
    pub(crate) fn behind(&self, number: usize) -> usize
        requires { lists_number self.now.order number ≡ true }
        ensures place { number_place self.now.order result
            ≡ number_place self.now.order number + 1 }
        ensures listed { is_listed_or_end self.now.order result ≡ true }
    {
        self.next[number]
    }

    /// The number behind one.
    pub fn next(&self, number: usize) -> Option<usize>
        requires { lists_number self.now.order number ≡ true }
        ensures value { result ≡ slice_get self.now.order (number_place self.now.order number + 1) }
        ensures listed { IfSome result (λ other. lists_number self.now.order other ≡ true) }
    {
        self.numbers_differ();
        match self.behind(number) {
            0 => None,
            behind => Some(behind),
        }
    }

    /// The numbers in order.
    pub fn iter(&self) -> Numbers<'_>
        ensures { result ≡ self.now.order }
    {
        Numbers::from(self)
    }

    /// The numbers behind one.
    pub fn iter_behind(&self, number: usize) -> Numbers<'_>
        requires { lists_number self.now.order number ≡ true }
        ensures { result ≡ drop (number_place self.now.order number + 1) self.now.order }
    {
        Numbers::behind(self, number)
    }

    /// The number at a place, counted from 0. It is found from the front.
    pub fn at(&self, place: usize) -> Option<usize>
        ensures value { result ≡ slice_get self.now.order place }
        ensures listed { IfSome result (λ number. lists_number self.now.order number ≡ true) }
    {
        self.iter().nth(place)
    }

    /// The place of a number, and how many there are where it isn't listed. It is found from the front.
    pub fn place(&self, number: usize) -> usize
        ensures { result ≡ number_place self.now.order number }
    {
        let count = self.len();
        place_among(self.iter(), number).unwrap_or(count)
    }

    /// Takes all numbers out.
    pub fn clear(&mut self)
        ensures { self.new ≡ record self.old { order = [] } }
    {
        if self.count > 0 {
            self.next[0] = 0;
            self.previous[0] = 0;
            self.count = 0;
        }
    }

    /// Puts a number at the front.
    pub fn push_front(&mut self, number: usize)
        requires within { number < self.old.bound }
        requires counts { 0 < number }
        requires fresh { lists_number self.old.order number ≡ false }
        ensures { self.new ≡ record self.old { order = number ∷ self.old.order } }
    {
        let first = self.first().unwrap_or(0);
        self.insert_before(first, number);
    }

    /// Puts a number at the end.
    pub fn push_back(&mut self, number: usize)
        requires within { number < self.old.bound }
        requires counts { 0 < number }
        requires fresh { lists_number self.old.order number ≡ false }
        ensures value { self.new ≡ record self.old { order = self.old.order ++ number ∷ [] } }
        ensures listed { (other : ℕ) → lists_number self.new.order other
            ≡ ((other == number) || lists_number self.old.order other) }
    {
        self.numbers_differ();
        self.insert_before(0, number);
    }

    /// Puts a number at a place, which is found from the front unless it is the end.
    pub fn insert(&mut self, place: usize, number: usize)
        requires within { number < self.old.bound }
        requires counts { 0 < number }
        requires fresh { lists_number self.old.order number ≡ false }
        requires place { place ≤ length self.old.order }
        ensures value { self.new ≡ record self.old { order = insert self.old.order place number } }
        ensures listed { (other : ℕ) → lists_number self.new.order other
            ≡ ((other == number) || lists_number self.old.order other) }
    {
        self.numbers_differ();
        let other = if place == self.count {
            0
        } else {
            self.at(place).unwrap_or(0)
        };
        self.insert_before(other, number);
    }

    /// Puts a number before another one, or at the end before 0.
    pub fn insert_before(&mut self, other: usize, number: usize)
        requires within { number < self.old.bound }
        requires counts { 0 < number }
        requires other { is_listed_or_end self.old.order other ≡ true }
        requires fresh { lists_number self.old.order number ≡ false }
        ensures value { self.new ≡ record self.old {
          order = insert self.old.order (number_place self.old.order other) number;
        } }
        ensures listed { (each : ℕ) → lists_number self.new.order each
            ≡ ((each == number) || lists_number self.old.order each) }
    {
        let front = self.previous[other];
        self.next[front] = number;
        self.next[number] = other;
        self.previous[number] = front;
        self.previous[other] = number;
        self.count += 1;
    }

    /// Takes a number out.
    pub fn remove(&mut self, number: usize)
        requires { lists_number self.old.order number ≡ true }
        ensures value { self.new ≡ record self.old {
          order = remove self.old.order (number_place self.old.order number);
        } }
        ensures listed { (other : ℕ) → lists_number self.new.order other
            ≡ (not (other == number) && lists_number self.old.order other) }
    {
        let front = self.previous[number];
        let back = self.next[number];
        self.next[front] = back;
        self.previous[back] = front;
        self.count -= 1;
    }
}

fn grow(links: &mut Vec<usize>, len: usize) -> Result<(), AllocError>
    ensures kept { (number : ℕ)
        → slice_index links.new.items number ≡ slice_index links.old.items number }
    ensures longer { vec_len links.old ≤ vec_len links.new }
    ensures ok { OnOk result (len ≤ vec_len links.new) }
{
    if links.len() < len {
        links.resize(len, 0)?;
    }
    Ok(())
}

fn place_among(numbers: Numbers<'_>, number: usize) -> Option<usize>
    requires { length numbers < 2 ^ 64 }
    ensures { result ≡ position (λ other. number == other) numbers.entry }
{
    let mut numbers = numbers;
    numbers.position(|other| number == other)
}
