// Values that are passed over: their grammar is tested, and nothing of them is kept.
ghost use Rattle.std.specs.Prelude.{◌≡◌, ℕ, List, Option, ◌+◌, ◌^◌, ◌<◌, ◌≤◌, length, option_map, IfErr};
ghost use Rattle.dl_kinds.specs.Answers.{Gives};
ghost use Rattle.bencode_core.specs.Passing as passing;
ghost use Rattle.bencode_core.specs.Reading as specs;

use crate::ben::BenKind;
use crate::fault::BenErr;
use crate::reading::{MAX_DEPTH, behind, is_spelled, key_at, kind_at};
use crate::scalars::{END, begins, integer_at, string_at};

#[tactic(auto, unfolding(crate::specs::Reading::integer_value))]
fn integer_len(place: u32, bytes: &[u8]) -> Result<u32, BenErr>
    requires { place + length bytes.now < 2 ^ 32 }
    ensures exact { passing.AnswersLen result (specs.integer_value place bytes.now) }
    ensures fault { IfErr result passing.TellsFault }
{
    let Some((narrowed, rest)) = integer_at(bytes) else {
        return Err(BenErr::Wrong { at: place });
    };
    if narrowed.is_none() {
        return Err(BenErr::TooWide { at: place });
    }
    Ok((bytes.len() - rest.len()) as u32)
}

#[tactic(auto, unfolding(crate::specs::Reading::string_value))]
fn string_len(place: u32, bytes: &[u8]) -> Result<u32, BenErr>
    requires { place + length bytes.now < 2 ^ 32 }
    ensures exact { passing.AnswersLen result (specs.string_value place bytes.now) }
    ensures fault { IfErr result passing.TellsFault }
{
    let Some((_, rest)) = string_at(bytes) else {
        return Err(BenErr::Wrong { at: place });
    };
    Ok((bytes.len() - rest.len()) as u32)
}

/// How many bytes spell the value at the front, which may be so many levels deep.
#[cycle(checking)]
pub(crate) fn value_len(levels: u32, place: u32, bytes: &[u8]) -> Result<u32, BenErr>
    requires deep { levels ≤ MAX_DEPTH }
    requires fits { place + length bytes.now < 2 ^ 32 }
    ensures exact { passing.AnswersLen result (specs.value_at levels place bytes.now) }
    ensures fault { IfErr result passing.TellsFault }
{
    if levels == 0 {
        if is_spelled(bytes) {
            return Err(BenErr::TooDeep { at: place });
        }
        return Err(BenErr::Wrong { at: place });
    }
    match kind_at(bytes) {
        None => Err(BenErr::Wrong { at: place }),
        Some(BenKind::Integer) => integer_len(place, bytes),
        Some(BenKind::String) => string_len(place, bytes),
        Some(BenKind::List) => list_len(levels - 1, place, bytes),
        Some(BenKind::Dict) => dict_len(levels - 1, place, bytes),
    }
}

#[cycle(checking)]
fn list_len(levels: u32, place: u32, bytes: &[u8]) -> Result<u32, BenErr>
    requires deep { levels < MAX_DEPTH }
    requires fits { place + length bytes.now < 2 ^ 32 }
    requires opened { 0 < length bytes.now }
    ensures exact { passing.AnswersLen result (specs.list_value (specs.value_at levels) place bytes.now) }
    ensures fault { IfErr result passing.TellsFault }
{
    let mut next = place + 1;
    let mut rest = behind(1, bytes);
    while !begins(END, rest) {
        let len = value_len(levels, next, rest)?;
        next += len;
        rest = behind(len, rest);
    }
    Ok(next + 1 - place)
}

/// A key and how many bytes spell it with its value.
#[cycle(checking)]
#[tactic(auto, unfolding(crate::specs::Reading::member_by))]
fn member_len<'a>(
    levels: u32,
    before: Option<&[u8]>,
    place: u32,
    bytes: &'a [u8],
) -> Result<(&'a [u8], u32), BenErr>
    requires deep { levels < MAX_DEPTH }
    requires fits { place + length bytes.now < 2 ^ 32 }
    ensures exact { Gives {Y = List ℕ × ℕ} (λ m. (m.0.now, m.1)) specs.fault_of result
        (passing.member_len (specs.member_by (specs.value_at levels)
        (option_map (λ k. k.now) before.entry) place bytes.now)) }
    ensures fault { IfErr result passing.TellsFault }
{
    let (key, rest) = key_at(before, place, bytes)?;
    let key_len = (bytes.len() - rest.len()) as u32;
    let len = value_len(levels, place + key_len, rest)?;
    Ok((key, key_len + len))
}

#[cycle(checking)]
fn dict_len(levels: u32, place: u32, bytes: &[u8]) -> Result<u32, BenErr>
    requires deep { levels < MAX_DEPTH }
    requires fits { place + length bytes.now < 2 ^ 32 }
    requires opened { 0 < length bytes.now }
    ensures exact { passing.AnswersLen result (specs.dict_value (specs.value_at levels) place bytes.now) }
    ensures fault { IfErr result passing.TellsFault }
{
    let mut before: Option<&[u8]> = None;
    let mut next = place + 1;
    let mut rest = behind(1, bytes);
    while !begins(END, rest) {
        let (key, len) = member_len(levels, before, next, rest)?;
        before = Some(key);
        next += len;
        rest = behind(len, rest);
    }
    Ok(next + 1 - place)
}
