// The links of a load, over which its mirrors answer.
ghost use Rattle.std.specs.Prelude.{◌≡◌, ◌<◌, IfOk};
ghost use Rattle.link_source.specs.Memory.{mirror_of, mirrors_of};
ghost use Rattle.load_setup.specs.Links.{IsLoadLink, bad_answer, load_mirror, load_mirrors};

use crate::payload::{PIECE, TOTAL};
use crate::sound_links::SoundLinks;
use dl_kinds::{NoMemory, Text};
use link_source::{Bad, BadKind, MOST_RECEIVED, Manner, MemFile, MemLinks, MemMirror};
use std::alloc::{AllocError, Global};

/// How many links a load has.
pub const LOAD_LINKS: u16 = 8;

// The mirror at a host.
#[tactic(auto, unfolding(crate::specs::Links::load_mirror))]
fn mirror(alloc: Global, n: u64, host: &str) -> Result<MemMirror, AllocError>
    ensures { IfOk result (λ mirror. mirror_of mirror ≡ load_mirror n host.now) }
{
    let mut files = Vec::with_capacity(alloc, 1)?;
    files.push((
        Text::of(alloc, "/load.bin")?,
        MemFile::Load { n, len: TOTAL },
    ))?;
    Ok(MemMirror {
        host: Text::of(alloc, host)?,
        port: 80,
        files,
        manner: Manner::Ranges,
    })
}

#[tactic(auto, unfolding(crate::specs::Links::load_mirrors))]
fn mirrors(alloc: Global, n: u64) -> Result<Vec<MemMirror>, AllocError>
    ensures { IfOk result (λ mirrors. mirrors_of mirrors.items ≡ load_mirrors n) }
{
    let mut mirrors = Vec::with_capacity(alloc, 3)?;
    mirrors.push(mirror(alloc, n, "m0.test")?)?;
    mirrors.push(mirror(alloc, n, "m1.test")?)?;
    mirrors.push(mirror(alloc, n, "m2.test")?)?;
    Ok(mirrors)
}

// The bad answer of a link: one byte of a reply is turned, the first of a piece.
fn bad_answer(n: u64, link: u16) -> Bad
    ensures { result ≡ bad_answer n link }
{
    let piece = (u128::from(n) + u128::from(link)) % 64;
    Bad {
        mirror: link % 2,
        kind: BadKind::Flip(piece as u64 * PIECE),
    }
}

/// The link of this number.
pub fn load_link(alloc: Global, n: u64, link: u16) -> Result<SoundLinks, NoMemory>
    ensures { IfOk result (IsLoadLink n link) }
{
    let mut bad = Vec::with_capacity(alloc, 1)?;
    bad.push(bad_answer(n, link))?;
    let links = MemLinks::new(
        alloc,
        mirrors(alloc, n)?,
        bad,
        MOST_RECEIVED as u32,
        Vec::new(alloc),
    )?;
    Ok(SoundLinks::new(links))
}
