// The numbers of a list, one by one.
ghost use Rattle.std.specs.Prelude.{◌≡◌, ◌+◌, true, drop};
ghost use Rattle.number_list.specs.Order.{lists_number, number_place};
ghost use Rattle.std.specs.Iterator.{YieldsFirst, item_count};

use crate::NumberList;
use std::marker::Model;

/// The numbers of a list from one on.
#[derive(Drop)]
pub struct Numbers<'a> {
    list: &'a NumberList,
    // The next number, or 0 at the end.
    next: usize,
}

impl<'a> Model for Numbers<'a> {
    ghost use Rattle.std.specs.Prelude.{List, ℕ, drop};
    ghost use Rattle.number_list.specs.Order.{number_place, IsAt};

    ghost Value = { List ℕ };

    ghost view = { λ s. drop (number_place s.list.now.order s.next) s.list.now.order };

    ghost invariant = { λ s. IsAt s.list.now.order s.next };
}

impl<'a> Numbers<'a> {
    pub(crate) fn from(list: &'a NumberList) -> Self
        ensures { result ≡ list.now.order }
    {
        list.numbers_differ();
        let next = list.first().unwrap_or(0);
        Numbers { list, next }
    }

    pub(crate) fn behind(list: &'a NumberList, number: usize) -> Self
        requires { lists_number list.now.order number ≡ true }
        ensures { result ≡ drop (number_place list.now.order number + 1) list.now.order }
    {
        list.numbers_differ();
        let next = list.behind(number);
        Numbers { list, next }
    }
}

impl<'a> Iterator for Numbers<'a> {
    type Item = usize;

    ghost next_gives = { YieldsFirst (λ s. s) };

    ghost remaining = { item_count (λ s. s) };

    fn next(&mut self) -> Option<usize> {
        let number = self.next;
        if number == 0 {
            return None;
        }
        self.next = self.list.behind(number);
        Some(number)
    }
}
