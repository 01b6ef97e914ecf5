// Bytes as values.
ghost use Rattle.std.specs.Prelude.{◌≡◌, ℕ, List, ◌++◌, Option, Some, ◌+◌, ◌^◌, ◌<◌, ◌≤◌, length, drop, IfOk, IfErr, option_map};
ghost use Rattle.dl_kinds.specs.Answers.{Gives};
ghost use Rattle.bencode_core.specs.Value.{spelling, string_spelling};
ghost use Rattle.bencode_core.specs.Node.{last_key};
ghost use Rattle.bencode_core.specs.declared.ben.Member.{Member};
ghost use Rattle.bencode_core.specs.Passing.{TellsFault};
ghost use Rattle.bencode_core.specs.Reading as specs;

use crate::ben::{Ben, BenKind, Member, Node};
use crate::fault::BenErr;
use crate::scalars::{DICT, END, INTEGER, LIST, begins, integer_at, string_at};
use std::alloc::Global;

/// How many values may stand one in the other.
pub const MAX_DEPTH: u32 = 100;

/// What the first byte begins.
pub(crate) fn kind_at(bytes: &[u8]) -> Option<BenKind>
    ensures { result ≡ specs.kind_at bytes.now }
{
    match *bytes.first()? {
        INTEGER => Some(BenKind::Integer),
        LIST => Some(BenKind::List),
        DICT => Some(BenKind::Dict),
        b'0'..=b'9' => Some(BenKind::String),
        _ => None,
    }
}

/// Whether a value is spelled at the front, as far as that can be told without reading its parts.
pub(crate) fn is_spelled(bytes: &[u8]) -> bool
    requires { length bytes.now < 2 ^ 32 }
    ensures { result ≡ specs.is_spelled bytes.now (specs.kind_at bytes.now) }
{
    match kind_at(bytes) {
        None => false,
        Some(BenKind::Integer) => integer_at(bytes).is_some(),
        Some(BenKind::String) => string_at(bytes).is_some(),
        Some(BenKind::List | BenKind::Dict) => true,
    }
}

#[tactic(auto, unfolding(crate::specs::Reading::integer_value))]
fn integer_value(place: u32, bytes: &[u8]) -> Result<Ben, BenErr>
    requires { place + length bytes.now < 2 ^ 32 }
    ensures exact { specs.AnswersValue result (specs.integer_value place bytes.now) }
    ensures place { IfOk result (λ b. b.place ≡ place) }
{
    let Some((narrowed, rest)) = integer_at(bytes) else {
        return Err(BenErr::Wrong { at: place });
    };
    let Some(number) = narrowed else {
        return Err(BenErr::TooWide { at: place });
    };
    let len = bytes.len() - rest.len();
    Ok(Ben {
        start: place,
        end: place + len as u32,
        node: Node::Integer(number),
    })
}

#[tactic(auto, unfolding(crate::specs::Reading::string_value))]
fn string_value(alloc: Global, place: u32, bytes: &[u8]) -> Result<Ben, BenErr>
    requires { place + length bytes.now < 2 ^ 32 }
    ensures exact { specs.AnswersValue result (specs.string_value place bytes.now) }
    ensures place { IfOk result (λ b. b.place ≡ place) }
{
    let Some((text, rest)) = string_at(bytes) else {
        return Err(BenErr::Wrong { at: place });
    };
    let len = bytes.len() - rest.len();
    Ok(Ben {
        start: place,
        end: place + len as u32,
        node: Node::String(Vec::from_slice(alloc, text)?),
    })
}

/// A key that stands behind the one before it, and the bytes behind the key.
#[tactic(auto, unfolding(crate::specs::Reading::key_at))]
pub(crate) fn key_at<'a>(
    before: Option<&[u8]>,
    place: u32,
    bytes: &'a [u8],
) -> Result<(&'a [u8], &'a [u8]), BenErr>
    requires { length bytes.now < 2 ^ 32 }
    ensures exact { Gives (λ k. k.0.now) specs.fault_of result
        (specs.key_at (option_map (λ k. k.now) before.entry) place bytes.now) }
    ensures rest { IfOk result (λ k. bytes.now ≡ string_spelling k.0.now ++ k.1.now) }
    ensures fault { IfErr result TellsFault }
{
    let Some((key, rest)) = string_at(bytes) else {
        return Err(BenErr::Wrong { at: place });
    };
    match before {
        Some(before) if before.cmp(key).is_ge() => Err(BenErr::Wrong { at: place }),
        _ => Ok((key, rest)),
    }
}

/// The bytes behind so many.
pub(crate) fn behind(len: u32, bytes: &[u8]) -> &[u8]
    requires { len ≤ length bytes.now }
    ensures { result.now ≡ drop len bytes.now }
{
    &bytes[len as usize..]
}

/// The key of the last member.
fn last_key(members: &[Member]) -> Option<&[u8]>
    ensures { option_map (λ k. k.now) result ≡ last_key members.now }
{
    members.last().map(|member| member.key.as_slice())
}

#[cycle(reading)]
fn value_at(alloc: Global, levels: u32, place: u32, bytes: &[u8]) -> Result<Ben, BenErr>
    requires deep { levels ≤ MAX_DEPTH }
    requires fits { place + length bytes.now < 2 ^ 32 }
    ensures exact { specs.AnswersValue result (specs.value_at levels place bytes.now) }
    ensures place { IfOk result (λ b. b.place ≡ place) }
{
    if levels == 0 {
        if is_spelled(bytes) {
            return Err(BenErr::TooDeep { at: place });
        }
        return Err(BenErr::Wrong { at: place });
    }
    match kind_at(bytes) {
        None => Err(BenErr::Wrong { at: place }),
        Some(BenKind::Integer) => integer_value(place, bytes),
        Some(BenKind::String) => string_value(alloc, place, bytes),
        Some(BenKind::List) => list_value(alloc, levels - 1, place, bytes),
        Some(BenKind::Dict) => dict_value(alloc, levels - 1, place, bytes),
    }
}

#[cycle(reading)]
fn list_value(alloc: Global, levels: u32, place: u32, bytes: &[u8]) -> Result<Ben, BenErr>
    requires deep { levels < MAX_DEPTH }
    requires fits { place + length bytes.now < 2 ^ 32 }
    requires opened { 0 < length bytes.now }
    ensures exact { specs.AnswersValue result (specs.list_value (specs.value_at levels) place bytes.now) }
    ensures place { IfOk result (λ b. b.place ≡ place) }
{
    let mut items = Vec::new(alloc);
    let mut next = place + 1;
    let mut rest = behind(1, bytes);
    while !begins(END, rest) {
        let item = value_at(alloc, levels, next, rest)?;
        let len = item.spelled_len();
        next += len;
        rest = behind(len, rest);
        items.push(item)?;
    }
    // Of the room to grow a list of one value has three times as much as that value takes.
    items.shrink_to_fit();
    Ok(Ben {
        start: place,
        end: next + 1,
        node: Node::List(items),
    })
}

#[cycle(reading)]
#[tactic(auto, unfolding(crate::specs::Reading::member_by))]
fn member_at(
    alloc: Global,
    levels: u32,
    before: Option<&[u8]>,
    place: u32,
    bytes: &[u8],
) -> Result<Member, BenErr>
    requires deep { levels < MAX_DEPTH }
    requires fits { place + length bytes.now < 2 ^ 32 }
    ensures exact { Gives {X = Member} (λ m. (m.key.items, m.value.value)) specs.fault_of result
        (specs.member_by (specs.value_at levels)
        (option_map (λ k. k.now) before.entry) place bytes.now) }
    ensures place { IfOk result (λ m. m.value.place
        ≡ place + length (string_spelling m.key.items)) }
{
    let (key, rest) = key_at(before, place, bytes)?;
    let key_len = bytes.len() - rest.len();
    let value = value_at(alloc, levels, place + key_len as u32, rest)?;
    Ok(Member {
        key: Vec::from_slice(alloc, key)?,
        value,
    })
}

#[cycle(reading)]
fn dict_value(alloc: Global, levels: u32, place: u32, bytes: &[u8]) -> Result<Ben, BenErr>
    requires deep { levels < MAX_DEPTH }
    requires fits { place + length bytes.now < 2 ^ 32 }
    requires opened { 0 < length bytes.now }
    ensures exact { specs.AnswersValue result (specs.dict_value (specs.value_at levels) place bytes.now) }
    ensures place { IfOk result (λ b. b.place ≡ place) }
{
    let mut members = Vec::new(alloc);
    let mut next = place + 1;
    let mut rest = behind(1, bytes);
    while !begins(END, rest) {
        let member = member_at(alloc, levels, last_key(&members), next, rest)?;
        let (_, end) = member.value.span();
        rest = behind(end - next, rest);
        next = end;
        members.push(member)?;
    }
    members.shrink_to_fit();
    Ok(Ben {
        start: place,
        end: next + 1,
        node: Node::Dict(members),
    })
}

/// A value that all of the bytes spell.
#[tactic(auto, unfolding(crate::specs::Reading::reading))]
fn whole(alloc: Global, bytes: &[u8]) -> Result<Ben, BenErr>
    requires { length bytes.now < 2 ^ 32 }
    ensures exact { specs.AnswersValue result (specs.reading bytes.now) }
    ensures place { IfOk result (λ b. b.place ≡ 0) }
{
    let value = value_at(alloc, MAX_DEPTH, 0, bytes)?;
    let len = value.spelled_len();
    if len as usize != bytes.len() {
        return Err(BenErr::Trailing { at: len });
    }
    Ok(value)
}

impl Ben {
    ghost use Rattle.std.specs.Prelude.{Ok};
    ghost use Rattle.bencode_core.specs.Value.{Value, Spells};

    /// The value that the bytes spell, all of them. An error but want of memory is the first fault from left to
    /// right; at one byte Wrong comes before TooDeep, and that before TooWide. Time and memory are in proportion to
    /// the bytes, and the stack is that of a hundred levels at most.
    pub fn read(alloc: Global, bytes: &[u8]) -> Result<Ben, BenErr>
        requires { length bytes.now < 2 ^ 32 }
        // What is read is spelled by the bytes.
        ensures found { IfOk result (λ b. Spells b.value bytes.now) }
        ensures place { IfOk result (λ b. b.place ≡ 0) }
        // What the bytes spell is read, unless memory runs out.
        ensures only { (v : Value) → Spells v bytes.now → specs.AnswersValue result (Ok v) }
        // Which value or fault it is.
        ensures exact { specs.AnswersValue result (specs.reading bytes.now) }
    {
        whole(alloc, bytes)
    }
}
