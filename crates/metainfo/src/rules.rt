// The rules for the value of `info` but those for its files.
ghost use Rattle.std.specs.Prelude.{◌≡◌, ◌+◌, ◌/◌, ◌^◌, ◌<◌, ◌≤◌, length, IfOk, OnOk, true, Some, None, option_map, if◌then◌else◌};
ghost use Rattle.std.specs.Str.{is_utf8};
ghost use Rattle.dl_kinds.specs.Answers.{Gives};
ghost use Rattle.bencode_core.specs.Value.{Spells, spelling};
ghost use Rattle.bencode_core.specs.Placed.{StandsIn};
ghost use Rattle.metainfo.specs.Refusals.{refusal_of};
ghost use Rattle.metainfo.specs.Rules as specs;
ghost use Rattle.metainfo.specs.Tests.{is_part};

use crate::fields::{integer_in, is_dict, string_in, value_in};
use crate::{Key, MetaErr};
use bencode_core::{BenErr, BenSlice};
use dl_kinds::{Digests, MAX_PIECE_LEN, NoMemory, Plan, Text};
use sha1::Sha1;
use span_map::is_valid_part;
use std::alloc::Global;

/// The most bytes of a piece.
const MAX_PIECE: i64 = MAX_PIECE_LEN as i64;

/// The bytes of a digest.
pub const DIGEST_LEN: usize = 20;

#[tactic(auto, unfolding(crate::specs::Rules::file_of))]
pub(crate) fn file_of(bytes: &[u8]) -> Result<BenSlice<'_>, MetaErr>
    requires { length bytes.now < 2 ^ 32 }
    ensures exact { Gives (λ file. file) refusal_of result (specs.file_of bytes.now) }
    ensures spelled { IfOk result (λ file. Spells file.value bytes.now) }
    ensures place { IfOk result (λ file. file.place ≡ 0) }
{
    match BenSlice::read(bytes) {
        Ok(file) => Ok(file),
        Err(BenErr::NoMemory) => Err(MetaErr::NoMemory),
        Err(fault) => Err(MetaErr::Bencode(fault)),
    }
}

fn dict_of(found: BenSlice<'_>) -> Result<BenSlice<'_>, MetaErr>
    ensures exact { Gives (λ dict. dict) refusal_of result (specs.dict_of found.entry) }
    ensures same { IfOk result (λ dict. dict ≡ found.entry) }
{
    if is_dict(&found) {
        Ok(found)
    } else {
        Err(MetaErr::BadKind(Key::Info))
    }
}

#[tactic(auto, unfolding(crate::specs::Rules::info_in))]
pub(crate) fn info_in<'a>(file: &BenSlice<'a>) -> Result<BenSlice<'a>, MetaErr>
    ensures exact { Gives (λ info. info) refusal_of result (specs.info_in file.now) }
    ensures slice { IfOk result (StandsIn file.now) }
{
    if !is_dict(file) {
        return Err(MetaErr::BadKind(Key::Info));
    }
    dict_of(value_in(file, Key::Info)?)
}

// The text of a valid part.
#[tactic(auto, using(crate::proofs::Parts::part_found, crate::proofs::Parts::no_part, crate::proofs::Parts::no_text))]
fn part_text(bytes: &[u8]) -> Option<&str>
    ensures { option_map (λ part. part.now) result
        ≡ (if is_part bytes.now then Some bytes.now else None) }
{
    match std::str::from_utf8(bytes) {
        Ok(text) if is_valid_part(bytes) => Some(text),
        _ => None,
    }
}

/// The name, which is a valid part of a path.
#[tactic(auto, unfolding(crate::specs::Rules::name_in), using(crate::proofs::Parts::part_is_text))]
pub(crate) fn name_in(alloc: Global, info: &BenSlice<'_>) -> Result<Text, MetaErr>
    ensures exact { Gives (λ name. name) refusal_of result (specs.name_in info.now) }
    ensures text { IfOk result (λ name. is_utf8 name ≡ true) }
{
    match part_text(string_in(info, Key::Name)?) {
        Some(name) => Ok(Text::of(alloc, name)?),
        None => Err(MetaErr::BadKind(Key::Name)),
    }
}

/// The piece length, from 1 to 67,108,864.
#[tactic(auto, unfolding(crate::specs::Rules::piece_len_in))]
pub(crate) fn piece_len_in(info: &BenSlice<'_>) -> Result<u32, MetaErr>
    ensures { Gives (λ len. len) refusal_of result (specs.piece_len_in info.now) }
{
    match integer_in(info, Key::PieceLength)? {
        len @ 1..=MAX_PIECE => Ok(len as u32),
        _ => Err(MetaErr::TooLarge(Key::PieceLength)),
    }
}

fn digests_of(alloc: Global, bytes: &[u8]) -> Result<Digests, NoMemory>
    ensures { IfOk result (λ digests. digests
        ≡ specs.first_digests (length bytes.now / DIGEST_LEN) bytes.now) }
{
    let mut digests = Digests::new(alloc);
    let mut rest = bytes;
    while let Some((digest, behind)) = rest.split_first_chunk::<DIGEST_LEN>() {
        digests.push(*digest)?;
        rest = behind;
    }
    Ok(digests)
}

/// The digests, of which there are whole ones only.
#[tactic(auto, unfolding(crate::specs::Rules::digests_in), using(crate::proofs::Lengths::digests_len))]
pub(crate) fn digests_in(alloc: Global, info: &BenSlice<'_>) -> Result<Digests, MetaErr>
    requires { length (spelling info.now.value) < 2 ^ 32 }
    ensures exact { Gives (λ digests. digests) refusal_of result (specs.digests_in info.now) }
    ensures few { IfOk result (λ digests. length digests < 2 ^ 32) }
{
    let bytes = string_in(info, Key::Pieces)?;
    if bytes.len() % DIGEST_LEN != 0 {
        return Err(MetaErr::BadKind(Key::Pieces));
    }
    Ok(digests_of(alloc, bytes)?)
}

/// The plan of a payload, within its limits.
#[tactic(auto, unfolding(crate::specs::Rules::plan_fits))]
pub(crate) fn plan_of(total: u64, piece_len: u32) -> Result<Plan, MetaErr>
    ensures exact { Gives (λ _. tt) refusal_of result (specs.plan_fits total piece_len) }
    ensures total { IfOk result (λ plan. plan.total ≡ total) }
    ensures piece_len { IfOk result (λ plan. plan.piece_len ≡ piece_len) }
{
    Plan::new(total, piece_len).ok_or(MetaErr::TooLarge(Key::Length))
}

/// As many digests as pieces.
#[tactic(auto, unfolding(crate::specs::Rules::digests_fit))]
pub(crate) fn check_count(have: u32, want: u32) -> Result<(), MetaErr>
    ensures exact { Gives (λ _. tt) refusal_of result (specs.digests_fit have want) }
    ensures same { OnOk result (have ≡ want) }
{
    if have != want {
        return Err(MetaErr::DigestCount { have, want });
    }
    Ok(())
}

/// SHA-1 of the bytes that spell the value.
pub(crate) fn info_hash_of(bytes: &[u8], info: &BenSlice<'_>) -> [u8; 20]
    requires { info.now.place + length (spelling info.now.value) ≤ length bytes.now }
    ensures { result ≡ specs.info_hash_of bytes.now info.now }
{
    let (start, end) = info.span();
    Sha1::digest(&bytes[start as usize..end as usize])
}
