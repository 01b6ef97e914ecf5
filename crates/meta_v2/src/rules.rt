// The rules for the value of `info` but those for its files.
ghost use Rattle.std.specs.Prelude.{◌≡◌, ◌+◌, ◌^◌, ◌<◌, ◌≤◌, length, IfOk, IfSome, true, Some, None, option_map, if◌then◌else◌};
ghost use Rattle.dl_kinds.specs.Answers.{Gives};
ghost use Rattle.bencode_core.specs.Value.{Spells, spelling};
ghost use Rattle.bencode_core.specs.Placed.{StandsIn};
ghost use Rattle.merkle_trees.specs.Trees.{IsPieceLen};
ghost use Rattle.metainfo.specs.Tests.{is_part};
ghost use Rattle.meta_v2.specs.Refusals.{refusal_of};
ghost use Rattle.meta_v2.specs.Rules as specs;

use crate::fields::{integer_in, is_dict, string_in, value_in};
use crate::{KeyV2, V2Err};
use bencode_core::{BenErr, BenSlice};
use dl_kinds::Text;
use merkle_trees::{SHA256_LEN, is_piece_len};
use sha2::{Digest, Sha256};
use span_map::is_valid_part;
use std::alloc::Global;

#[tactic(auto, unfolding(crate::specs::Rules::file_of))]
pub(crate) fn file_of(bytes: &[u8]) -> Result<BenSlice<'_>, V2Err>
    requires { length bytes.now < 2 ^ 32 }
    ensures exact { Gives (λ file. file) refusal_of result (specs.file_of bytes.now) }
    ensures spelled { IfOk result (λ file. Spells file.value bytes.now) }
    ensures place { IfOk result (λ file. file.place ≡ 0) }
{
    match BenSlice::read(bytes) {
        Ok(file) => Ok(file),
        Err(BenErr::NoMemory) => Err(V2Err::NoMemory),
        Err(fault) => Err(V2Err::Bencode(fault)),
    }
}

/// The value of `info`, a dictionary.
#[tactic(auto, unfolding(crate::specs::Rules::info_in))]
pub(crate) fn info_in<'a>(file: &BenSlice<'a>) -> Result<BenSlice<'a>, V2Err>
    ensures exact { Gives (λ info. info) refusal_of result (specs.info_in file.now) }
    ensures slice { IfOk result (StandsIn file.now) }
{
    let info = value_in(file, KeyV2::Info)?;
    if !is_dict(&info) {
        return Err(V2Err::BadKind(KeyV2::Info));
    }
    Ok(info)
}

/// The version is 2.
#[tactic(auto, unfolding(crate::specs::Rules::version_in))]
pub(crate) fn version_in(info: &BenSlice<'_>) -> Result<(), V2Err>
    ensures { Gives (λ _. tt) refusal_of result (specs.version_in info.now) }
{
    if integer_in(info, KeyV2::MetaVersion)? != 2 {
        return Err(V2Err::BadKind(KeyV2::MetaVersion));
    }
    Ok(())
}

/// The text of a valid part of a path.
#[tactic(auto, using(metainfo::proofs::Parts::part_found, metainfo::proofs::Parts::no_part, metainfo::proofs::Parts::no_text))]
pub(crate) fn part_text(bytes: &[u8]) -> Option<&str>
    ensures { option_map (λ part. part.now) result
        ≡ (if is_part bytes.now then Some bytes.now else None) }
{
    match std::str::from_utf8(bytes) {
        Ok(text) if is_valid_part(bytes) => Some(text),
        _ => None,
    }
}

/// The name, which is a valid part of a path.
#[tactic(auto, unfolding(crate::specs::Rules::name_in))]
pub(crate) fn name_in(alloc: Global, info: &BenSlice<'_>) -> Result<Text, V2Err>
    ensures exact { Gives (λ name. name) refusal_of result (specs.name_in info.now) }
    ensures part { IfOk result (λ name. is_part name ≡ true) }
{
    match part_text(string_in(info, KeyV2::Name)?) {
        Some(name) => Ok(Text::of(alloc, name)?),
        None => Err(V2Err::BadKind(KeyV2::Name)),
    }
}

// A length of pieces as the number that the file has.
#[tactic(auto, using(crate::proofs::PieceLengths::is_length, crate::proofs::PieceLengths::no_length, crate::proofs::PieceLengths::too_long))]
fn piece_len_of(number: i64) -> Option<u32>
    ensures exact { result ≡ specs.piece_len_of number }
    ensures sound { IfSome result IsPieceLen }
{
    match u32::try_from(number) {
        Ok(len) if is_piece_len(len) => Some(len),
        _ => None,
    }
}

/// The piece length, a power of two from 16,384 to 67,108,864.
#[tactic(auto, unfolding(crate::specs::Rules::piece_len_in))]
pub(crate) fn piece_len_in(info: &BenSlice<'_>) -> Result<u32, V2Err>
    ensures exact { Gives (λ len. len) refusal_of result (specs.piece_len_in info.now) }
    ensures sound { IfOk result IsPieceLen }
{
    piece_len_of(integer_in(info, KeyV2::PieceLength)?).ok_or(V2Err::BadKind(KeyV2::PieceLength))
}

/// SHA-256 of the bytes that spell the value.
pub(crate) fn info_hash_of(bytes: &[u8], info: &BenSlice<'_>) -> [u8; SHA256_LEN]
    requires { info.now.place + length (spelling info.now.value) ≤ length bytes.now }
    ensures { result ≡ specs.info_hash_v2 bytes.now info.now }
{
    let (start, end) = info.span();
    Sha256::digest(&bytes[start as usize..end as usize])
}
