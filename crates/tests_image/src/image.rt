// An image at three mirrors, and five links to them.
ghost use Rattle.std.specs.Prelude.{◌≡◌, length, IfOk};

use crate::gated::GatedLinks;
use dl_clock::MemClock;
use dl_kinds::{NoMemory, Text};
use link_source::{MOST_RECEIVED, Manner, MemFile, MemLinks, MemMirror};
use load_setup::TOTAL;
use std::alloc::{AllocError, Global};
use std::sync::atomic::AtomicU64;

/// Which load the image is.
pub const NUMBER: u64 = 5;

/// The word that names its metainfo file.
pub fn image_words(alloc: Global) -> Result<Vec<String>, AllocError> {
    let mut words = Vec::with_capacity(alloc, 1)?;
    words.push(String::from_str(alloc, "load.torrent")?)?;
    Ok(words)
}

// A mirror that has this file.
fn mirror(alloc: Global, host: &str, target: &str, file: MemFile) -> Result<MemMirror, AllocError> {
    let mut files = Vec::with_capacity(alloc, 1)?;
    files.push((Text::of(alloc, target)?, file))?;
    Ok(MemMirror {
        host: Text::of(alloc, host)?,
        port: 80,
        files,
        manner: Manner::Ranges,
    })
}

fn image() -> MemFile {
    MemFile::Load {
        n: NUMBER,
        len: TOTAL,
    }
}

// The mirrors that the metainfo file names, and the host to which the first one leads.
fn mirrors(alloc: Global) -> Result<Vec<MemMirror>, AllocError> {
    let moved = MemFile::Moved(Text::of(alloc, "http://images.test/image.bin")?);
    let mut mirrors = Vec::with_capacity(alloc, 4)?;
    mirrors.push(mirror(alloc, "m0.test", "/load.bin", moved)?)?;
    mirrors.push(mirror(alloc, "images.test", "/image.bin", image())?)?;
    mirrors.push(mirror(alloc, "m1.test", "/load.bin", image())?)?;
    mirrors.push(mirror(alloc, "m2.test", "/load.bin", image())?)?;
    Ok(mirrors)
}

fn link<'a>(alloc: Global, asked: &'a AtomicU64) -> Result<(GatedLinks<'a>, MemClock), NoMemory> {
    let links = MemLinks::new(
        alloc,
        mirrors(alloc)?,
        Vec::new(alloc),
        MOST_RECEIVED as u32,
        Vec::new(alloc),
    )?;
    Ok((GatedLinks::new(links, asked), MemClock::new(0, 0)))
}

/// As many links as workers of one download by default.
pub fn image_links<'a>(
    alloc: Global,
    asked: &'a AtomicU64,
) -> Result<Vec<(GatedLinks<'a>, MemClock)>, NoMemory>
    ensures { IfOk result (λ links. length links.items ≡ 5) }
{
    let mut links = Vec::with_capacity(alloc, 5)?;
    links.push(link(alloc, asked)?)?;
    links.push(link(alloc, asked)?)?;
    links.push(link(alloc, asked)?)?;
    links.push(link(alloc, asked)?)?;
    links.push(link(alloc, asked)?)?;
    Ok(links)
}
