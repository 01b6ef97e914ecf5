// The piece layers of the files.
ghost use Rattle.std.specs.Prelude.{◌≡◌, ◌≤◌, ◌<◌, ◌^◌, None, length, map, option_map, IfOk, OnOk};
ghost use Rattle.std.specs.List.{list_any};
ghost use Rattle.dl_kinds.specs.Answers.{Gives};
ghost use Rattle.dl_kinds.specs.Plan.{pieces_of};
ghost use Rattle.dl_kinds.specs.declared.plan.TheConstants.{MAX_PIECES};
ghost use Rattle.bencode_core.specs.Value.{IsSound};
ghost use Rattle.merkle_trees.specs.Trees.{IsPieceLen};
ghost use Rattle.meta_v2.specs.Layers.{KeysAscend, pairs_of};
ghost use Rattle.meta_v2.specs.Refusals.{refusal_of, sought};
ghost use Rattle.meta_v2.specs.declared.refusals.KeyV2.TheVariants.{PieceLayers};
ghost use Rattle.meta_v2.specs.Rules as specs;

use crate::entries::TreeEntry;
use crate::fields::{is_dict, sought};
use crate::limits::pieces_of;
use crate::{FileV2, FilesV2, KeyV2, V2Err};
use bencode_core::BenSlice;
use dl_kinds::NoMemory;
use merkle_trees::{Hashes, SHA256_LEN, layer_root};
use std::alloc::Global;

// The string for this root.
fn layer_text<'a>(layers: &[(&'a [u8], BenSlice<'a>)], root: &[u8]) -> Option<&'a [u8]>
    requires { KeysAscend None (pairs_of layers.now) }
    ensures { option_map (λ text. text.now) result
        ≡ specs.layer_text (pairs_of layers.now) root.now }
{
    match layers.binary_search_by(|layer| layer.0.cmp(root)) {
        Ok(place) => layers[place].1.string(),
        Err(_) => None,
    }
}

// Whether some file is longer than a piece.
fn some_longer(piece_len: u32, entries: &[TreeEntry]) -> bool
    ensures { result ≡ list_any (specs.is_longer piece_len) entries.now }
{
    entries.iter().any(|entry| entry.len > piece_len as u64)
}

// The members of `piece layers`.
fn members_in<'a>(
    alloc: Global,
    some: bool,
    file: &BenSlice<'a>,
) -> Result<Vec<(&'a [u8], BenSlice<'a>)>, V2Err>
    requires { IsSound file.now.value }
    ensures exact { Gives (λ layers. pairs_of layers.items) refusal_of result
        (specs.layers_by some (sought PieceLayers file.now)) }
    ensures ascend { IfOk result (λ layers. KeysAscend None (pairs_of layers.items)) }
{
    match sought(file, KeyV2::PieceLayers) {
        None if some => Err(V2Err::Lacks(KeyV2::PieceLayers)),
        None => Ok(Vec::new(alloc)),
        Some(found) if is_dict(&found) => Ok(found.members(alloc)?),
        Some(_) => Err(V2Err::BadKind(KeyV2::PieceLayers)),
    }
}

fn has_layer<'a>(piece_len: u32, layers: &[(&'a [u8], BenSlice<'a>)], entry: &TreeEntry) -> bool
    requires { KeysAscend None (pairs_of layers.now) }
    ensures { result ≡ specs.has_layer piece_len (pairs_of layers.now) entry.now }
{
    entry.len <= piece_len as u64 || layer_text(layers, &entry.root).is_some()
}

// Each longer file has its string.
#[tactic(auto, unfolding(crate::specs::Rules::texts_fit))]
fn check_texts<'a>(
    piece_len: u32,
    layers: &[(&'a [u8], BenSlice<'a>)],
    entries: &[TreeEntry],
) -> Result<(), V2Err>
    requires { KeysAscend None (pairs_of layers.now) }
    ensures { Gives (λ _. tt) refusal_of result
        (specs.texts_fit piece_len (pairs_of layers.now) entries.now) }
{
    for entry in entries {
        if !has_layer(piece_len, layers, entry) {
            return Err(V2Err::BadKind(KeyV2::PieceLayers));
        }
    }
    Ok(())
}

/// The strings of `piece layers` by roots, one for each file that is longer than a piece.
#[tactic(auto, unfolding(crate::specs::Rules::layers_in))]
pub(crate) fn layers_in<'a>(
    alloc: Global,
    piece_len: u32,
    entries: &[TreeEntry],
    file: &BenSlice<'a>,
) -> Result<Vec<(&'a [u8], BenSlice<'a>)>, V2Err>
    requires { IsSound file.now.value }
    ensures exact { Gives (λ layers. pairs_of layers.items) refusal_of result
        (specs.layers_in piece_len entries.now file.now) }
    ensures ascend { IfOk result (λ layers. KeysAscend None (pairs_of layers.items)) }
{
    let layers = members_in(alloc, some_longer(piece_len, entries), file)?;
    check_texts(piece_len, &layers, entries)?;
    Ok(layers)
}

// The hashes of a string, of which there are whole ones only.
fn hashes_in(alloc: Global, text: &[u8]) -> Result<Hashes, NoMemory>
    ensures { IfOk result (λ hashes. hashes ≡ specs.hashes_in text.now) }
{
    let mut hashes = Hashes::new(alloc);
    let mut rest = text;
    while let Some((hash, behind)) = rest.split_first_chunk::<SHA256_LEN>() {
        hashes.push(*hash)?;
        rest = behind;
    }
    Ok(hashes)
}

#[tactic(auto, unfolding(crate::specs::Rules::root_fits))]
fn root_fits(
    number: u32,
    piece_len: u32,
    root: &[u8; SHA256_LEN],
    layer: Hashes,
) -> Result<Hashes, V2Err>
    requires piece_len { IsPieceLen piece_len }
    requires some { 1 ≤ length layer }
    requires few { length layer ≤ MAX_PIECES }
    ensures { Gives (λ same. same) refusal_of result
        (specs.root_fits number piece_len root.now layer) }
{
    if layer_root(&layer, piece_len) != *root {
        return Err(V2Err::LayerRoot(number));
    }
    Ok(layer)
}

// The layer of a file that is longer than a piece, by its string.
#[tactic(auto, unfolding(crate::specs::Rules::long_layer), using(crate::proofs::Hashing::hashes_count))]
fn long_layer(
    alloc: Global,
    number: u32,
    piece_len: u32,
    entry: &TreeEntry,
    text: &[u8],
) -> Result<Hashes, V2Err>
    requires piece_len { IsPieceLen piece_len }
    requires some { 1 ≤ pieces_of entry.now.len piece_len }
    requires few { pieces_of entry.now.len piece_len ≤ MAX_PIECES }
    ensures { Gives (λ layer. layer) refusal_of result
        (specs.long_layer number piece_len entry.now text.now) }
{
    if text.len() as u64 != SHA256_LEN as u64 * pieces_of(entry.len, piece_len) {
        return Err(V2Err::LayerLength(number));
    }
    root_fits(number, piece_len, &entry.root, hashes_in(alloc, text)?)
}

// The layer of a file that is no longer than a piece.
fn short_layer(alloc: Global, entry: &TreeEntry) -> Result<Hashes, NoMemory>
    ensures { IfOk result (λ layer. layer ≡ specs.short_layer entry.now) }
{
    let mut layer = Hashes::new(alloc);
    if entry.len > 0 {
        layer.push(entry.root)?;
    }
    Ok(layer)
}

#[tactic(auto, unfolding(crate::specs::Rules::layer_in))]
fn layer_in<'a>(
    alloc: Global,
    number: u32,
    piece_len: u32,
    layers: &[(&'a [u8], BenSlice<'a>)],
    entry: &TreeEntry,
) -> Result<Hashes, V2Err>
    requires piece_len { IsPieceLen piece_len }
    requires few { pieces_of entry.now.len piece_len ≤ MAX_PIECES }
    requires ascend { KeysAscend None (pairs_of layers.now) }
    ensures { Gives (λ layer. layer) refusal_of result
        (specs.layer_in number piece_len (pairs_of layers.now) entry.now) }
{
    if entry.len <= piece_len as u64 {
        return Ok(short_layer(alloc, entry)?);
    }
    match layer_text(layers, &entry.root) {
        Some(text) => long_layer(alloc, number, piece_len, entry, text),
        None => long_layer(alloc, number, piece_len, entry, &[]),
    }
}

#[tactic(auto, unfolding(crate::specs::Rules::file_in))]
fn file_in<'a>(
    alloc: Global,
    number: u32,
    piece_len: u32,
    layers: &[(&'a [u8], BenSlice<'a>)],
    entry: &TreeEntry,
) -> Result<FileV2, V2Err>
    requires piece_len { IsPieceLen piece_len }
    requires few { pieces_of entry.now.len piece_len ≤ MAX_PIECES }
    requires ascend { KeysAscend None (pairs_of layers.now) }
    ensures { Gives (λ file. file) refusal_of result
        (specs.file_in number piece_len (pairs_of layers.now) entry.now) }
{
    let layer = layer_in(alloc, number, piece_len, layers, entry)?;
    Ok(FileV2 {
        path: entry.path.copy(alloc)?,
        len: entry.len,
        root: entry.root,
        layer,
    })
}

/// The files with their layers.
pub(crate) fn files_of<'a>(
    alloc: Global,
    piece_len: u32,
    layers: &[(&'a [u8], BenSlice<'a>)],
    entries: &[TreeEntry],
) -> Result<FilesV2, V2Err>
    requires piece_len { IsPieceLen piece_len }
    requires few { specs.entry_pieces piece_len entries.now ≤ MAX_PIECES }
    requires short { length entries.now < 2 ^ 32 }
    requires ascend { KeysAscend None (pairs_of layers.now) }
    ensures { Gives (λ files. files) refusal_of result
        (specs.files_from 0 piece_len (pairs_of layers.now) entries.now) }
{
    let mut files = FilesV2::new(alloc);
    for number in 0..entries.len() {
        files.push(file_in(alloc, number as u32, piece_len, layers, &entries[number])?)?;
    }
    Ok(files)
}
