// The hosts of mirrors.
ghost use Rattle.std.specs.Prelude.{◌≡◌, ◌++◌, ◌+◌, ◌≤◌, [], All, length, map, IfOk, OnOk};
ghost use Rattle.dl_kinds.specs.declared.claims.TheConstants.{MAX_MIRRORS};
ghost use Rattle.link_source.specs.Endpoint.{IsUsable};
ghost use Rattle.mirror_hosts.specs.Hosts as specs;

use dl_kinds::{NoMemory, Text, Texts};
use std::alloc::Global;
use url::Url;

fn host_of(alloc: Global, url: &str) -> Result<Text, NoMemory>
    requires { IsUsable url.now }
    ensures { IfOk result (λ host. host ≡ specs.url_host url.now) }
{
    match Url::parse(alloc, url) {
        Ok(url) => Text::of(alloc, url.host_str().unwrap_or("")),
        // A usable URL is one by the parser.
        Err(_) => Err(NoMemory),
    }
}

// Adds the host of each URL.
fn add_hosts(alloc: Global, urls: &Texts, hosts: &mut Texts) -> Result<(), NoMemory>
    requires { All IsUsable urls.now }
    ensures { OnOk result (hosts.new ≡ hosts.old ++ map specs.url_host urls.now) }
{
    for place in 0..urls.len() {
        let host = host_of(alloc, urls.at(place).as_str())?;
        hosts.push(host)?;
    }
    Ok(())
}

// The place of a host among others, and how many they are where it isn't one.
fn place_of(known: &Texts, host: &Text) -> usize
    ensures { result ≡ specs.host_place known.now host.now }
{
    for place in 0..known.len() {
        if host.bytes() == known.at(place).bytes() {
            return place;
        }
    }
    known.len()
}

// Adds a host that isn't known yet.
fn add_unknown(alloc: Global, known: &mut Texts, host: &Text) -> Result<(), NoMemory>
    ensures { OnOk result (known.new ≡ specs.with_host known.old host.now) }
{
    if place_of(known, host) < known.len() {
        return Ok(());
    }
    known.push(host.copy(alloc)?)
}

// The hosts, each once.
fn distinct(alloc: Global, hosts: &Texts) -> Result<Texts, NoMemory>
    ensures { IfOk result (λ known. known ≡ specs.distinct_hosts [] hosts.now) }
{
    let mut known = Texts::new(alloc);
    for place in 0..hosts.len() {
        add_unknown(alloc, &mut known, hosts.at(place))?;
    }
    Ok(known)
}

// The place of each host among these.
fn places(alloc: Global, known: &Texts, hosts: &Texts) -> Result<Vec<u16>, NoMemory>
    requires { length known.now ≤ MAX_MIRRORS }
    ensures { IfOk result (λ places. places.items ≡ map (specs.host_place known.now) hosts.now) }
{
    let mut places = Vec::with_capacity(alloc, hosts.len())?;
    for place in 0..hosts.len() {
        let number = place_of(known, hosts.at(place)) as u16;
        places.push(number)?;
    }
    Ok(places)
}

fn numbers(alloc: Global, hosts: &Texts) -> Result<Vec<u16>, NoMemory>
    requires { length hosts.now ≤ MAX_MIRRORS }
    ensures { IfOk result (λ numbers. numbers.items ≡ specs.numbers_of_hosts hosts.now) }
{
    let known = distinct(alloc, hosts)?;
    places(alloc, &known, hosts)
}

/// For each mirror, the seeds first, the number of its host: mirrors share one exactly where the hosts of their URLs are
/// one by the URL Standard's parser, whatever their ports. Hosts are numbered from 0 by their first mirrors.
pub fn host_numbers(alloc: Global, seeds: &Texts, uris: &Texts) -> Result<Vec<u16>, NoMemory>
    requires seeds { All IsUsable seeds.now }
    requires uris { All IsUsable uris.now }
    requires few { length seeds.now + length uris.now ≤ MAX_MIRRORS }
    ensures { IfOk result (λ numbers. numbers.items ≡ specs.host_numbers (seeds.now ++ uris.now)) }
{
    let mut hosts = Texts::new(alloc);
    add_hosts(alloc, seeds, &mut hosts)?;
    add_hosts(alloc, uris, &mut hosts)?;
    numbers(alloc, &hosts)
}
