// The seeds of a metainfo file (BEP 19).
ghost use Rattle.std.specs.Prelude.{◌≡◌, ◌≤◌, ◌<◌, ◌^◌, IfSome, position, is_none, ◌++◌, ◌∷◌, [], length, take, filter, Some, None, option_map, if◌then◌else◌, IfOk, OnOk};
ghost use Rattle.dl_kinds.specs.Answers.{Gives};
ghost use Rattle.bencode_core.specs.Placed.{string_of};
ghost use Rattle.bencode_core.specs.Value.{spelling};
ghost use Rattle.metainfo.specs.Refusals.{refusal_of};
ghost use Rattle.metainfo.specs.Rules as specs;
ghost use Rattle.metainfo.specs.Tests.{is_seed};

use crate::fields::{is_list, sought};
use crate::{Key, MetaErr};
use bencode_core::BenSlice;
use dl_kinds::{MAX_MIRRORS, NoMemory, Text, Texts};
use link_source::is_usable;
use std::alloc::Global;

// The text of the URL of a mirror that can be asked.
#[tactic(auto, using(crate::proofs::Usable::seed_found, crate::proofs::Usable::no_seed, crate::proofs::Usable::no_text))]
fn seed_text(alloc: Global, url: &[u8]) -> Result<Option<&str>, NoMemory>
    ensures { IfOk result (λ seed. option_map (λ text. text.now) seed
        ≡ (if is_seed url.now then Some url.now else None)) }
{
    match std::str::from_utf8(url) {
        Ok(text) => Ok(if is_usable(alloc, text)? {
            Some(text)
        } else {
            None
        }),
        Err(_) => Ok(None),
    }
}

// Adds the URL, if it is one, as long as there is room.
#[tactic(auto, using(crate::proofs::Usable::full, crate::proofs::Usable::added, crate::proofs::Usable::not_added))]
fn push_seed(alloc: Global, seeds: &mut Texts, url: &[u8]) -> Result<(), NoMemory>
    requires { length seeds.old ≤ MAX_MIRRORS }
    ensures { OnOk result (seeds.new ≡ take MAX_MIRRORS (seeds.old ++ filter is_seed (url.now ∷ []))) }
{
    if seeds.len() == MAX_MIRRORS as usize {
        return Ok(());
    }
    match seed_text(alloc, url)? {
        Some(text) => seeds.push(Text::of(alloc, text)?),
        None => Ok(()),
    }
}

fn seeds_among(alloc: Global, items: &[BenSlice<'_>]) -> Result<Texts, NoMemory>
    ensures { IfOk result (λ seeds. seeds ≡ specs.seeds_among (specs.strings_among items.now)) }
{
    let mut seeds = Texts::new(alloc);
    for item in items {
        if let Some(url) = item.string() {
            push_seed(alloc, &mut seeds, url)?;
        }
    }
    Ok(seeds)
}

// The number of the first that is no string.
fn first_other(items: &[BenSlice<'_>]) -> Option<usize>
    ensures found { result ≡ position (λ item. is_none (string_of item.value)) items.now }
    ensures within { IfSome result (λ place. place < length items.now) }
{
    items.iter().position(|item| item.string().is_none())
}

#[tactic(auto, unfolding(crate::specs::Rules::seeds_of), using(crate::proofs::Lengths::items_len))]
fn seeds_of(alloc: Global, found: &BenSlice<'_>) -> Result<Texts, MetaErr>
    requires { length (spelling found.now.value) < 2 ^ 32 }
    ensures { Gives (λ seeds. seeds) refusal_of result (specs.seeds_of found.now) }
{
    if let Some(url) = found.string() {
        let mut seeds = Texts::new(alloc);
        push_seed(alloc, &mut seeds, url)?;
        return Ok(seeds);
    }
    if !is_list(found) {
        return Err(MetaErr::BadKind(Key::UrlList));
    }
    let items = found.items(alloc)?;
    match first_other(&items) {
        Some(place) => Err(MetaErr::BadSeed(place as u32)),
        None => Ok(seeds_among(alloc, &items)?),
    }
}

#[tactic(auto, unfolding(crate::specs::Rules::seeds_in), using(crate::proofs::Lengths::part_len))]
pub(crate) fn seeds_in(alloc: Global, file: &BenSlice<'_>) -> Result<Texts, MetaErr>
    requires { length (spelling file.now.value) < 2 ^ 32 }
    ensures { Gives (λ seeds. seeds) refusal_of result (specs.seeds_in file.now) }
{
    match sought(file, Key::UrlList) {
        None => Ok(Texts::new(alloc)),
        Some(found) => seeds_of(alloc, &found),
    }
}
