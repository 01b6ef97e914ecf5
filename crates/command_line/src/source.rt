// What is to be downloaded.
ghost use Rattle.std.specs.Prelude.{◌≡◌, ◌↔◌, Bool, map, IsTrue, IfOk, MatchOption};
ghost use Rattle.command_line.specs.Sources.{AreUris, IsFirst, IsMetainfoName, IsNoUrl, IsSource, words_of};

use dl_kinds::{MAX_MIRRORS, NoMemory, Text, Texts};
use link_source::{EndErr, Endpoint, is_usable};
use std::alloc::Global;

/// What is to be downloaded.
#[derive(Debug, Drop)]
pub enum Source {
    /// What a metainfo file describes, from the mirrors that it names and these.
    Metainfo { file: Text, uris: Texts },
    /// One file, from these mirrors of it.
    Mirrors { uris: Texts },
    /// Nothing: the console is to add downloads.
    Console,
}

fn is_no_url(alloc: Global, word: &str) -> Result<bool, NoMemory>
    ensures { IfOk result (λ is. IsTrue is ↔ IsNoUrl word.now) }
{
    match Endpoint::of(alloc, word) {
        Ok(_) | Err(EndErr::Scheme) => Ok(false),
        Err(EndErr::NotUrl) => Ok(true),
        Err(EndErr::NoMemory) => Err(NoMemory),
    }
}

// The URIs, if all are usable and they aren't too many.
fn uris_of(alloc: Global, words: &[&str]) -> Result<Option<Texts>, NoMemory>
    ensures { IfOk result (λ uris. MatchOption uris
        (AreUris (map (λ word. word.now) words.now) → ⊥)
        (λ uris. (uris ≡ map (λ word. word.now) words.now) × AreUris uris)) }
{
    if words.len() > MAX_MIRRORS as usize {
        return Ok(None);
    }
    let mut uris = Texts::new(alloc);
    for word in words {
        if !is_usable(alloc, word)? {
            return Ok(None);
        }
        uris.push(Text::of(alloc, word)?)?;
    }
    Ok(Some(uris))
}

fn is_metainfo_name(alloc: Global, word: &str) -> Result<bool, NoMemory>
    ensures { IfOk result (λ is. IsTrue is ↔ IsMetainfoName word.now) }
{
    if !word.as_bytes().ends_with(b".torrent") {
        return Ok(false);
    }
    is_no_url(alloc, word)
}

// What some words name, of which this is the first.
fn source_from(alloc: Global, first: &str, words: &[&str]) -> Result<Option<Source>, NoMemory>
    requires { IsFirst first.now (map (λ word. word.now) words.now) }
    ensures { IfOk result (λ found. MatchOption found
        ((console : Bool) → (source : Source) → IsSource console (map (λ word. word.now) words.now) source → ⊥)
        (λ source. (console : Bool) → IsSource console (map (λ word. word.now) words.now) source)) }
{
    if is_metainfo_name(alloc, first)? {
        let file = Text::of(alloc, first)?;
        let Some(uris) = uris_of(alloc, &words[1..])? else {
            return Ok(None);
        };
        return Ok(Some(Source::Metainfo { file, uris }));
    }
    let Some(uris) = uris_of(alloc, words)? else {
        return Ok(None);
    };
    Ok(Some(Source::Mirrors { uris }))
}

/// What the words that belong to no option name, if there are any.
pub(crate) fn source_of(
    alloc: Global,
    words: Option<&[&str]>,
    console: bool,
) -> Result<Option<Source>, NoMemory>
    ensures { IfOk result (λ found. MatchOption found
        ((source : Source) → IsSource console (words_of words.entry) source → ⊥)
        (IsSource console (words_of words.entry))) }
{
    let words = words.unwrap_or(&[]);
    match words.first() {
        Some(first) => source_from(alloc, first, words),
        None if console => Ok(Some(Source::Console)),
        None => Ok(None),
    }
}
