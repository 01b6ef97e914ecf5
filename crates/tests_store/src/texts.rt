// Wants, and disks in memory, as text.
use anyhow::{Context, Result, bail};
use control_file::Want;
use dl_disk::MemDisk;
use dl_kinds::{Blob, Digests, Plan, Text, Texts};
use sha1::Sha1;
use span_map::{FileLen, Layout};
use std::alloc::Global;

/// The bytes that a text writes: letters with how many of each stand in a row, as `a*2,b*1` for `aab`, or hexadecimal
/// digits behind a `#`.
pub fn bytes_of(alloc: Global, text: &str) -> Result<Vec<u8>> {
    if let Some(digits) = text.strip_prefix("#") {
        return Ok(hex::decode(alloc, digits)?);
    }
    let mut bytes = Vec::new(alloc);
    for run in text.split(',') {
        let (letter, count) = run.split_once('*').context("a count is wanted")?;
        let many = letter.as_bytes().repeat(alloc, count.parse::<usize>()?)?;
        bytes.extend_from_slice(&many)?;
    }
    Ok(bytes)
}

/// A disk with these files, parted by spaces, of which the calls of these numbers fail.
pub fn disk_of(alloc: Global, text: &str, failing: Vec<u64>) -> Result<MemDisk> {
    let mut files = Vec::new(alloc);
    for file in text.split(' ') {
        if let Some((name, content)) = file.split_once('=') {
            let bytes = bytes_of(alloc, content)?;
            files.push((Text::of(alloc, name)?, Blob::wrap(bytes)))?;
        }
    }
    Ok(MemDisk::new(alloc, files, failing)?)
}

/// What the disk reads of a file, in hexadecimal digits.
pub fn shown_file(alloc: Global, disk: &MemDisk, name: &str) -> Result<String> {
    match disk.file(name) {
        Some(bytes) => Ok(hex::encode(alloc, bytes)?),
        None => Ok(String::from_str(alloc, "none")?),
    }
}

fn path_of(alloc: Global, text: &str) -> Result<Texts> {
    let mut path = Texts::new(alloc);
    for part in text.split('/') {
        path.push(Text::of(alloc, part)?)?;
    }
    Ok(path)
}

// Files by their names and lengths: `d/x=20000,d/y=5`.
fn layout_of(alloc: Global, text: &str) -> Result<Layout> {
    let mut files = Vec::new(alloc);
    for file in text.split(',') {
        let (path, len) = file.split_once('=').context("a length is wanted")?;
        files.push(FileLen {
            path: path_of(alloc, path)?,
            len: len.parse::<u64>()?,
        })?;
    }
    Layout::new(alloc, files).ok().context("no layout")
}

// The digests of the pieces of this payload.
fn digests_of(alloc: Global, payload: &[u8], piece_len: u32) -> Result<Digests> {
    let mut digests = Digests::new(alloc);
    for piece in payload.chunks(piece_len.max(1) as usize) {
        digests.push(Sha1::digest(piece))?;
    }
    Ok(digests)
}

/// A want: its folder, its base, the length of its pieces, its files, and the payload of a listed one.
pub fn want_of(alloc: Global, text: &str) -> Result<Want> {
    let words: Vec<&str> = text.split(' ').collect(alloc)?;
    let [dir, base, piece_len, files, payload @ ..] = words.as_slice() else {
        bail!("no want");
    };
    let piece_len = piece_len.parse::<u32>()?;
    let layout = layout_of(alloc, files)?;
    let plan = Plan::new(layout.total(), piece_len).context("no plan")?;
    let (digests, info_hash) = match payload {
        [payload] => {
            let payload = bytes_of(alloc, payload)?;
            (digests_of(alloc, &payload, piece_len)?, Some([7; 20]))
        }
        _ => (Digests::new(alloc), None),
    };
    Ok(Want {
        base: Text::of(alloc, base)?,
        dir: Text::of(alloc, dir)?,
        layout,
        plan,
        digests,
        info_hash,
    })
}
