// What metainfo files say as version 2.
use crate::cases::hex_of;
use anyhow::{Result, ensure};
use meta_v2::{FileV2, MetaV2, V2Err};
use std::alloc::Global;

// A file: its path, its length, its root and its layer.
fn write_file(alloc: Global, told: &mut String, file: &FileV2) -> Result<()> {
    for place in 0..file.path.len() {
        let mark = if place == 0 { "; " } else { "/" };
        write!(told, "{mark}{}", file.path.at(place).as_str())?;
    }
    write!(told, " {} {}", file.len, hex_of(alloc, &file.root)?)?;
    for hash in file.layer.as_slice() {
        write!(told, " {}", hex_of(alloc, hash)?)?;
    }
    Ok(())
}

fn meta_told(alloc: Global, meta: &MetaV2) -> Result<String> {
    let hash = hex_of(alloc, &meta.info_hash)?;
    let mut told = format!(in alloc; "{} {} {hash}", meta.name.as_str(), meta.piece_len)?;
    for file in meta.files.as_slice() {
        write_file(alloc, &mut told, file)?;
    }
    Ok(told)
}

/// What the bytes say that are spelled by these digits, or the first rule that they break.
pub fn metainfo_told(alloc: Global, digits: &str) -> Result<String> {
    let bytes = hex::decode(alloc, digits)?;
    ensure!(bytes.len() <= 1_000_000, "too long");
    match MetaV2::read(alloc, &bytes) {
        Ok(meta) => meta_told(alloc, &meta),
        Err(V2Err::Bencode(_)) => Ok(String::from_str(alloc, "Bencode")?),
        Err(refusal) => Ok(format!(in alloc; "{refusal:?}")?),
    }
}
