// Bencoded values that are read as their parts are asked for.
ghost use Rattle.std.specs.Prelude.{◌≡◌, ℕ, List, ◌+◌, ◌^◌, ◌<◌, length, map, option_map, IfOk, IfSome};
ghost use Rattle.bencode_core.specs.Value.{Value, Spells, spelling};
ghost use Rattle.bencode_core.specs.Reading as specs;
ghost use Rattle.bencode_core.specs.Slice.{IsFront, placed_at};

use crate::ben::BenKind;
use crate::checking::value_len;
use crate::fault::BenErr;
use crate::reading::{MAX_DEPTH, behind, kind_at};
use crate::scalars::{DICT, END, LIST, begins, integer_at, string_at};
use std::alloc::{AllocError, Global};
use std::marker::Model;

/// A bencoded value (BEP 3) as the slice of the input that spells it, and where that stands. It takes no memory of its
/// own: each call reads the slice again.
#[derive(Debug, Drop)]
pub struct BenSlice<'a> {
    place: u32,
    bytes: &'a [u8],
}

impl<'a> Model for BenSlice<'a> {
    ghost use Rattle.bencode_core.specs.Placed.{Placed};
    ghost use Rattle.bencode_core.specs.Code.{placed_code};

    ghost Value = { Placed };

    ghost coded = { placed_code };

    ghost use Rattle.bencode_core.specs.Slice.{spelled_value, IsSlice};

    ghost view = { λ s. record { place = s.place; value = spelled_value s.bytes.now } };

    ghost invariant = { λ s. IsSlice s.place s.bytes.now };
}

impl<'a> BenSlice<'a> {
    ghost use Rattle.bencode_core.specs.Placed.{items_of, members_of, member_of, integer_of, string_of, kind_of, StandsIn};

    /// The value that the bytes spell, all of them. An error is the first fault from left to right, as `Ben::read`
    /// answers it, and never want of memory.
    pub fn read(bytes: &'a [u8]) -> Result<BenSlice<'a>, BenErr>
        requires { length bytes.now < 2 ^ 32 }
        ensures found { IfOk result (λ b. Spells b.value bytes.now) }
        ensures place { IfOk result (λ b. b.place ≡ 0) }
        ensures exact { specs.AnswersValue result (specs.reading bytes.now) }
    {
        let len = value_len(MAX_DEPTH, 0, bytes)?;
        if len as usize != bytes.len() {
            return Err(BenErr::Trailing { at: len });
        }
        Ok(BenSlice { place: 0, bytes })
    }

    /// From which place to which it stands, the second one not included.
    pub fn span(&self) -> (u32, u32)
        ensures { result ≡ (self.now.place, self.now.place + length (spelling self.now.value)) }
    {
        (self.place, self.place + self.bytes.len() as u32)
    }

    pub fn kind(&self) -> BenKind
        ensures { result ≡ kind_of self.now.value }
    {
        match kind_at(self.bytes) {
            Some(kind) => kind,
            None => unreachable!(),
        }
    }

    /// The number, if it is one.
    pub fn integer(&self) -> Option<i64>
        ensures { result ≡ integer_of self.now.value }
    {
        match self.kind() {
            BenKind::Integer => integer_at(self.bytes)?.0,
            _ => None,
        }
    }

    /// The bytes of a string.
    pub fn string(&self) -> Option<&'a [u8]>
        ensures { option_map (λ bytes. bytes.now) result ≡ string_of self.now.value }
    {
        match self.kind() {
            BenKind::String => Some(string_at(self.bytes)?.0),
            _ => None,
        }
    }

    /// The values of a list, in their order; none of another kind. Each takes 24 bytes of memory.
    pub fn items(&self, alloc: Global) -> Result<Vec<BenSlice<'a>>, AllocError>
        ensures { IfOk result (λ items. items.items ≡ items_of self.now) }
    {
        let mut items = Vec::new(alloc);
        if !begins(LIST, self.bytes) {
            return Ok(items);
        }
        let mut next = self.place + 1;
        let mut rest = behind(1, self.bytes);
        while !begins(END, rest) {
            let item = front(next, rest);
            let (_, end) = item.span();
            rest = behind(end - next, rest);
            next = end;
            items.push(item)?;
        }
        Ok(items)
    }

    /// The members of a dictionary, keys and values, in their order; none of another kind. Each takes 40 bytes of memory.
    pub fn members(&self, alloc: Global) -> Result<Vec<(&'a [u8], BenSlice<'a>)>, AllocError>
        ensures { IfOk result (λ ms. map (λ m. (m.0.now, m.1)) ms.items ≡ members_of self.now) }
    {
        let mut members = Vec::new(alloc);
        if !begins(DICT, self.bytes) {
            return Ok(members);
        }
        let mut next = self.place + 1;
        let mut rest = behind(1, self.bytes);
        while let Some((key, behind_key)) = string_at(rest) {
            let at = next + (rest.len() - behind_key.len()) as u32;
            let value = front(at, behind_key);
            let (_, end) = value.span();
            rest = behind(end - at, behind_key);
            next = end;
            members.push((key, value))?;
        }
        Ok(members)
    }

    /// The value of this key in a dictionary.
    pub fn member(&self, key: &[u8]) -> Option<BenSlice<'a>>
        ensures member { result ≡ member_of key.now self.now }
        ensures slice { IfSome result (StandsIn self.now) }
    {
        if !begins(DICT, self.bytes) {
            return None;
        }
        let mut next = self.place + 1;
        let mut rest = behind(1, self.bytes);
        while let Some((found, behind_key)) = string_at(rest) {
            let at = next + (rest.len() - behind_key.len()) as u32;
            let value = front(at, behind_key);
            if found == key {
                return Some(value);
            }
            let (_, end) = value.span();
            rest = behind(end - at, behind_key);
            next = end;
        }
        None
    }
}

/// The value at the front, where one stands.
fn front(place: u32, bytes: &[u8]) -> BenSlice<'_>
    requires fits { place + length bytes.now < 2 ^ 32 }
    requires stands { (v : Value) × (rest : List ℕ) × IsFront v rest bytes.now }
    ensures { (v : Value) (rest : List ℕ) → IsFront v rest bytes.now → result ≡ placed_at place v }
{
    let Ok(len) = value_len(MAX_DEPTH, place, bytes) else {
        unreachable!()
    };
    BenSlice {
        place,
        bytes: &bytes[..len as usize],
    }
}
