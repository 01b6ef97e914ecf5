// What a file tree says of each file.
ghost use Rattle.std.specs.Prelude.{◌≡◌, ◌==◌, ◌++◌, ◌^◌, ◌<◌, true, false, if◌then◌else◌, Some, None, length, map, MatchBool, IfOk};
ghost use Rattle.merkle_trees.specs.declared.hashes.TheConstants.{SHA256_LEN};
ghost use Rattle.std.specs.List.{list_all};
ghost use Rattle.dl_kinds.specs.Answers.{Gives};
ghost use Rattle.metainfo.specs.Tests.{is_part};
ghost use Rattle.meta_v2.specs.Refusals.{refusal_of};
ghost use Rattle.meta_v2.specs.Rules as specs;
ghost use Rattle.meta_v2.specs.Walks.{seen};

use crate::fields::{integer_in, string_in};
use crate::rules::part_text;
use crate::tree::Branch;
use crate::{KeyV2, V2Err};
use bencode_core::BenSlice;
use dl_kinds::{NoMemory, Text, Texts};
use merkle_trees::SHA256_LEN;
use span_map::MAX_PARTS;
use std::alloc::Global;

/// A file without its piece layer.
#[derive(Debug, Drop)]
pub(crate) struct TreeEntry {
    pub path: Texts,
    pub len: u64,
    pub root: [u8; SHA256_LEN],
}

// Whether the path is this part alone.
fn is_alone(name: &[u8], path: &[&[u8]]) -> bool
    ensures { result ≡ specs.is_alone name.now (map (λ part. part.now) path.now) }
{
    match path {
        [part] => *part == name,
        _ => false,
    }
}

// Whether the one file of the tree has the name of the torrent.
fn is_lone_file(name: &[u8], files: &[Branch<'_>]) -> bool
    ensures { result ≡ specs.is_lone_file name.now (map seen files.now) }
{
    match files {
        [file] => is_alone(name, &file.path),
        _ => false,
    }
}

// Adds parts to a path. False where one isn't valid.
fn push_parts(alloc: Global, path: &mut Texts, parts: &[&[u8]]) -> Result<bool, NoMemory>
    ensures { IfOk result (λ valid. MatchBool valid
        ((list_all is_part (map (λ part. part.now) parts.now) ≡ true)
        × (path.new ≡ path.old ++ map (λ part. part.now) parts.now))
        (list_all is_part (map (λ part. part.now) parts.now) ≡ false)) }
{
    for place in 0..parts.len() {
        match part_text(parts[place]) {
            Some(text) => path.push(Text::of(alloc, text)?)?,
            None => return Ok(false),
        }
    }
    Ok(true)
}

// What stands before the parts of the tree.
fn name_before(alloc: Global, name: &Text, named: bool) -> Result<Texts, NoMemory>
    ensures { IfOk result (λ path. path ≡ specs.name_before name.now named) }
{
    let mut path = Texts::new(alloc);
    if !named {
        path.push(name.copy(alloc)?)?;
    }
    Ok(path)
}

#[tactic(auto, unfolding(crate::specs::Rules::path_in), using(crate::proofs::Paths::good_path, crate::proofs::Paths::no_parts, crate::proofs::Paths::many_parts, crate::proofs::Paths::bad_parts))]
fn path_in(
    alloc: Global,
    number: u32,
    name: &Text,
    named: bool,
    parts: &[&[u8]],
) -> Result<Texts, V2Err>
    requires { is_part name.now ≡ true }
    ensures { Gives (λ path. path) refusal_of result
        (specs.path_in number name.now named (map (λ part. part.now) parts.now)) }
{
    let mut path = name_before(alloc, name, named)?;
    if parts.is_empty() || parts.len() > MAX_PARTS - path.len() {
        return Err(V2Err::BadPath(number));
    }
    if !push_parts(alloc, &mut path, parts)? {
        return Err(V2Err::BadPath(number));
    }
    Ok(path)
}

#[tactic(auto, unfolding(crate::specs::Rules::len_in))]
fn len_in(dict: &BenSlice<'_>) -> Result<u64, V2Err>
    ensures { Gives (λ len. len) refusal_of result (specs.len_in dict.now) }
{
    match u64::try_from(integer_in(dict, KeyV2::Length)?) {
        Ok(len) => Ok(len),
        Err(_) => Err(V2Err::BadKind(KeyV2::Length)),
    }
}

// The bytes as a root, where they are as many.
#[tactic(auto, using(crate::proofs::Paths::exact_root, crate::proofs::Paths::other_root))]
fn root_of(bytes: &[u8]) -> Option<[u8; SHA256_LEN]>
    ensures { result ≡ (if length bytes.now == SHA256_LEN then Some bytes.now else None) }
{
    let (root, rest) = bytes.split_first_chunk::<SHA256_LEN>()?;
    if rest.is_empty() { Some(*root) } else { None }
}

#[tactic(auto, unfolding(crate::specs::Rules::some_root_in))]
fn some_root_in(dict: &BenSlice<'_>) -> Result<[u8; SHA256_LEN], V2Err>
    ensures { Gives (λ root. root) refusal_of result (specs.some_root_in dict.now) }
{
    root_of(string_in(dict, KeyV2::PiecesRoot)?).ok_or(V2Err::BadKind(KeyV2::PiecesRoot))
}

#[tactic(auto, unfolding(crate::specs::Rules::root_in))]
fn root_in(len: u64, dict: &BenSlice<'_>) -> Result<[u8; SHA256_LEN], V2Err>
    ensures { Gives (λ root. root) refusal_of result (specs.root_in len dict.now) }
{
    if len == 0 {
        return Ok([0; SHA256_LEN]);
    }
    some_root_in(dict)
}

#[tactic(auto, unfolding(crate::specs::Rules::entry_in))]
fn entry_in(
    alloc: Global,
    number: u32,
    name: &Text,
    named: bool,
    file: &Branch<'_>,
) -> Result<TreeEntry, V2Err>
    requires { is_part name.now ≡ true }
    ensures { Gives (λ entry. entry) refusal_of result
        (specs.entry_in number name.now named (seen file.now)) }
{
    let path = path_in(alloc, number, name, named, &file.path)?;
    let len = len_in(&file.found)?;
    let root = root_in(len, &file.found)?;
    Ok(TreeEntry { path, len, root })
}

/// The files of the tree, in its order.
pub(crate) fn entries_of(
    alloc: Global,
    name: &Text,
    files: &[Branch<'_>],
) -> Result<Vec<TreeEntry>, V2Err>
    requires part { is_part name.now ≡ true }
    requires few { length files.now < 2 ^ 32 }
    ensures exact { Gives (λ entries. entries.items) refusal_of result
        (specs.entries_of name.now (map seen files.now)) }
    ensures count { IfOk result (λ entries. length entries.items ≡ length files.now) }
{
    let named = is_lone_file(name.bytes(), files);
    let mut entries = Vec::new(alloc);
    for number in 0..files.len() {
        entries.push(entry_in(alloc, number as u32, name, named, &files[number])?)?;
    }
    Ok(entries)
}
