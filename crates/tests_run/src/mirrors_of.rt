// Mirrors and bad answers, as cases write them.
use crate::spelling::content;
use dl_kinds::{Blob, Text};
use link_source::{Bad, BadKind, Manner, MemFile, MemMirror};
use std::alloc::Global;
use std::test::Fail;

fn manner_of(word: &str) -> Result<Manner, Fail> {
    Ok(match word {
        "Ranges" => Manner::Ranges,
        "Whole" => Manner::Whole,
        "Chunked" => Manner::Chunked,
        "ToEnd" => Manner::ToEnd,
        _ => return Err("no manner")?,
    })
}

// `TARGET=BYTES`, or `TARGET>LOCATION` where the resource was moved.
fn file_at(alloc: Global, word: &str) -> Result<(Text, MemFile), Fail> {
    if let Some((target, location)) = word.split_once('>') {
        let location = Text::of(alloc, location)?;
        return Ok((Text::of(alloc, target)?, MemFile::Moved(location)));
    }
    let (target, bytes) = word.split_once('=').ok_or("no bytes")?;
    let bytes = Blob::wrap(content(alloc, bytes)?);
    Ok((Text::of(alloc, target)?, MemFile::Bytes(bytes)))
}

/// A mirror: its host, its port, its manner and its files.
pub fn mirror_of(alloc: Global, text: &str) -> Result<MemMirror, Fail> {
    let mut words = text.split(' ');
    let host = Text::of(alloc, words.next().ok_or("no host")?)?;
    let port = words.next().ok_or("no port")?.parse::<u16>()?;
    let manner = manner_of(words.next().ok_or("no manner")?)?;
    let mut files = Vec::new(alloc);
    for word in words {
        files.push(file_at(alloc, word)?)?;
    }
    Ok(MemMirror {
        host,
        port,
        files,
        manner,
    })
}

/// A bad answer of the first mirror.
pub fn bad_of(text: &str) -> Result<Bad, Fail> {
    let (kind, number) = text.split_once(' ').ok_or("no number")?;
    let kind = match kind {
        "status" => BadKind::Status(number.parse::<u16>()?),
        "cut" => BadKind::Cut(number.parse::<u32>()?),
        "flip" => BadKind::Flip(number.parse::<u64>()?),
        _ => return Err("no kind")?,
    };
    Ok(Bad { mirror: 0, kind })
}
