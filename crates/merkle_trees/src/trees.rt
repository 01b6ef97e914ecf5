// Roots over rows of hashes.
ghost use Rattle.std.specs.Prelude.{◌≡◌, ◌++◌, ◌/◌, ◌^◌, ◌<◌, ◌≤◌, [], length};
ghost use Rattle.std.specs.Int.{IsPowerOfTwo};
ghost use Rattle.sha2.specs.Sha256.{sha256};
ghost use Rattle.dl_kinds.specs.declared.plan.TheConstants.{BLOCK_LEN, MAX_BLOCKS, MAX_PIECES};
ghost use Rattle.merkle_trees.specs.Trees.{root_over, height_of, zero_leaf, merkle, file_root, piece_root, layer_root, IsPieceLen};
ghost use Rattle.merkle_trees.specs.declared.trees.TheConstants.{MAX_HEIGHT, MAX_WIDTH};

use crate::{Hashes, SHA256_LEN};
use dl_kinds::BLOCK_LEN;
use sha2::{Digest, Sha256};

/// The greatest height of a tree.
const MAX_HEIGHT: u32 = 31;

/// The most leaves of a tree.
pub const MAX_WIDTH: u32 = 2_147_483_648;

/// A leaf that is missing.
const ZERO_LEAF: [u8; SHA256_LEN] = [0; SHA256_LEN];

// The node above two others.
fn parent(left: &[u8; SHA256_LEN], right: &[u8; SHA256_LEN]) -> [u8; SHA256_LEN]
    ensures { result ≡ sha256 (left.now ++ right.now) }
{
    let mut hasher = Sha256::new();
    hasher.update(left.as_slice());
    hasher.update(right.as_slice());
    hasher.finalize()
}

// The root over pads alone.
fn pad_root(pad: &[u8; SHA256_LEN], height: u32) -> [u8; SHA256_LEN]
    ensures { result ≡ root_over pad.now height [] }
{
    let mut root = *pad;
    for _level in 0..height {
        root = parent(&root, &root);
    }
    root
}

// The width of a row at a height.
fn width_of(height: u32) -> usize
    requires { height ≤ MAX_HEIGHT }
    ensures { result ≡ 2 ^ height }
{
    1 << height
}

// The root over a row of width 2 ^ height, of which each node behind these is the pad.
fn root_over(nodes: &[[u8; SHA256_LEN]], pad: &[u8; SHA256_LEN], height: u32) -> [u8; SHA256_LEN]
    requires low { height ≤ MAX_HEIGHT }
    requires fit { length nodes.now ≤ 2 ^ height }
    ensures { result ≡ root_over pad.now height nodes.now }
{
    if nodes.is_empty() {
        return pad_root(pad, height);
    }
    if height == 0 {
        return nodes[0];
    }
    let (left, right) = nodes.split_at(nodes.len().min(width_of(height - 1)));
    parent(
        &root_over(left, pad, height - 1),
        &root_over(right, pad, height - 1),
    )
}

// The least height whose width is so many nodes or more.
fn height_of(count: usize) -> u32
    requires { count ≤ MAX_WIDTH }
    ensures value { result ≡ height_of count }
    ensures low { result ≤ MAX_HEIGHT }
    ensures fit { count ≤ 2 ^ result }
{
    let mut height = 0;
    while width_of(height) < count {
        height += 1;
    }
    height
}

/// The root over leaves in a row of this width: those missing at its end are 32 bytes of 0.
pub fn merkle(leaves: &Hashes, width: u32) -> [u8; SHA256_LEN]
    requires power { IsPowerOfTwo width }
    requires some { 1 ≤ length leaves.now }
    requires fit { length leaves.now ≤ width }
    ensures { result ≡ merkle leaves.now width }
{
    root_over(leaves.as_slice(), &ZERO_LEAF, height_of(width as usize))
}

/// The root of a file by all of its leaves: over the least width that they fit in.
pub fn file_root(leaves: &Hashes) -> [u8; SHA256_LEN]
    requires some { 1 ≤ length leaves.now }
    requires few { length leaves.now ≤ MAX_BLOCKS }
    ensures { result ≡ file_root leaves.now }
{
    root_over(leaves.as_slice(), &ZERO_LEAF, height_of(leaves.len()))
}

// The height of a full piece.
fn piece_height(piece_len: u32) -> u32
    requires { IsPieceLen piece_len }
    ensures value { result ≡ height_of (piece_len / BLOCK_LEN) }
    ensures low { result ≤ MAX_HEIGHT }
    ensures fit { piece_len / BLOCK_LEN ≤ 2 ^ result }
{
    height_of((piece_len / BLOCK_LEN) as usize)
}

/// The root of a piece of a file that is longer than a piece, as the file's piece layer lists it.
pub fn piece_root(leaves: &Hashes, piece_len: u32) -> [u8; SHA256_LEN]
    requires piece_len { IsPieceLen piece_len }
    requires some { 1 ≤ length leaves.now }
    requires fit { length leaves.now ≤ piece_len / BLOCK_LEN }
    ensures { result ≡ piece_root leaves.now piece_len }
{
    root_over(leaves.as_slice(), &ZERO_LEAF, piece_height(piece_len))
}

/// The root of a file that is longer than a piece, by its piece layer.
pub fn layer_root(layer: &Hashes, piece_len: u32) -> [u8; SHA256_LEN]
    requires piece_len { IsPieceLen piece_len }
    requires some { 1 ≤ length layer.now }
    requires few { length layer.now ≤ MAX_PIECES }
    ensures { result ≡ layer_root layer.now piece_len }
{
    let pad = pad_root(&ZERO_LEAF, piece_height(piece_len));
    root_over(layer.as_slice(), &pad, height_of(layer.len()))
}
