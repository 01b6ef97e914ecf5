// What comes of the lines of cases.
ghost use Rattle.merkle_trees.specs.Trees.{IsPieceLen};

use crate::metainfos::metainfo_told;
use crate::payloads::{numbers, payload, turn};
use anyhow::{Context, Result, bail, ensure};
use dl_kinds::{BLOCK_LEN, MAX_BLOCKS, MAX_PIECES};
use merkle_trees::{
    Hashes, MAX_COMPARED, MAX_WIDTH, differing, file_root, is_piece_len, layer_root, leaves,
    merkle, piece_root,
};
use std::alloc::Global;

pub fn hex_of(alloc: Global, hash: &[u8; 32]) -> Result<String> {
    Ok(hex::encode(alloc, hash.as_slice())?)
}

// The root of a file.
fn file_told(alloc: Global, bytes: &[u8]) -> Result<String> {
    let leaves = leaves(alloc, bytes)?;
    ensure!(!leaves.is_empty(), "no leaves");
    ensure!(leaves.len() as u64 <= MAX_BLOCKS, "too many leaves");
    hex_of(alloc, &file_root(&leaves))
}

// The root over the leaves, in a row of this width or of the next power of two.
fn width_told(alloc: Global, bytes: &[u8], width: u32) -> Result<String> {
    let leaves = leaves(alloc, bytes)?;
    ensure!(width <= MAX_WIDTH, "too wide");
    let width = width.next_power_of_two();
    ensure!(!leaves.is_empty(), "no leaves");
    ensure!(leaves.len() <= width as usize, "too many leaves");
    hex_of(alloc, &merkle(&leaves, width))
}

// The roots of the pieces.
fn layer_of(alloc: Global, bytes: &[u8], piece_len: u32) -> Result<Hashes>
    requires { IsPieceLen piece_len }
{
    let mut layer = Hashes::new(alloc);
    for piece in bytes.chunks(piece_len as usize) {
        let leaves = leaves(alloc, piece)?;
        ensure!(!leaves.is_empty(), "no leaves");
        ensure!(
            leaves.len() <= (piece_len / BLOCK_LEN) as usize,
            "too many leaves"
        );
        layer.push(piece_root(&leaves, piece_len))?;
    }
    Ok(layer)
}

// The piece layer of a file, and the root by it.
fn layer_told(alloc: Global, bytes: &[u8], piece_len: u32) -> Result<String> {
    ensure!(is_piece_len(piece_len), "no length of pieces");
    let layer = layer_of(alloc, bytes, piece_len)?;
    ensure!(!layer.is_empty(), "no pieces");
    ensure!(layer.len() as u64 <= MAX_PIECES, "too many pieces");
    let mut told = hex_of(alloc, &layer_root(&layer, piece_len))?;
    for hash in layer.as_slice() {
        write!(told, " {}", hex_of(alloc, hash)?)?;
    }
    Ok(told)
}

// The places of other leaves, where bytes are turned.
fn turned_told(alloc: Global, mut bytes: Vec<u8>, turned: &[usize]) -> Result<String> {
    let right = leaves(alloc, &bytes)?;
    turn(bytes.as_mut_slice(), turned);
    let wrong = leaves(alloc, &bytes)?;
    ensure!(wrong.len() == right.len(), "other lengths");
    ensure!(wrong.len() <= MAX_COMPARED, "too many leaves");
    let places = differing(alloc, &wrong, &right)?;
    let mut told = format!(in alloc; "{} of {}:", places.len(), right.len())?;
    for place in places.as_slice() {
        write!(told, " {place}")?;
    }
    Ok(told)
}

// What comes of a case on a payload of so many bytes, with the numbers behind its length.
fn payload_told(alloc: Global, word: &str, len: usize, behind: &[usize]) -> Result<String> {
    let bytes = payload(alloc, len)?;
    let next = u32::try_from(behind.first().copied().unwrap_or(0))?;
    match word {
        "file" => file_told(alloc, &bytes),
        "width" => width_told(alloc, &bytes, next),
        "layer" => layer_told(alloc, &bytes, next),
        "turned" => turned_told(alloc, bytes, behind),
        _ => bail!("no line of a case: {word}"),
    }
}

/// What comes of a line.
pub fn told(alloc: Global, line: &str) -> Result<String> {
    let (word, rest) = line.split_once(' ').context("a case is wanted")?;
    if word == "text" {
        return file_told(alloc, rest.as_bytes());
    }
    if word == "metainfo" {
        return metainfo_told(alloc, rest);
    }
    let numbers = numbers(alloc, rest)?;
    let (len, behind) = numbers.split_first().context("a length is wanted")?;
    payload_told(alloc, word, *len, behind)
}
