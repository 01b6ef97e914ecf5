// Steps of a run, one a line, by their words.
use crate::answers::{Answer, told_after};
use crate::calls::{global_call, keyed_call, run_call, torrent_call, uri_call};
use crate::rig::{Rig, Taken};
use crate::torrents::metainfo;
use anyhow::{Result, bail};
use dl_kinds::{Gid, GidKey, Run};
use option_set::{Options, Setting, read};
use std::alloc::{AllocError, Global};

/// The steps of a download that a key names.
const OF_KEYS: [&str; 14] = [
    "pause", "unpause", "remove", "forget", "move", "open", "save", "complete", "fail", "sum",
    "die", "clash", "seal", "change",
];

fn number_of(word: &str) -> Result<u64> {
    Ok(word.parse::<u64>()?)
}

fn small_number_of(word: &str) -> Result<u32> {
    Ok(word.parse::<u32>()?)
}

// The n-th of these words.
fn word<'a>(words: &[&'a str], n: usize) -> Result<&'a str> {
    match words.get(n) {
        Some(word) => Ok(*word),
        None => bail!("another word is wanted"),
    }
}

// The number that the n-th of these words writes.
fn number(words: &[&str], n: usize) -> Result<u64> {
    number_of(word(words, n)?)
}

fn small_number(words: &[&str], n: usize) -> Result<u32> {
    small_number_of(word(words, n)?)
}

// The numbers that a word has, between commas.
fn numbers(alloc: Global, word: &str) -> Result<Vec<u32>> {
    let mut numbers = Vec::new(alloc);
    for part in word.split(',') {
        numbers.push(small_number_of(part)?)?;
    }
    Ok(numbers)
}

// The value of an option, by both names.
fn value_of(alloc: Global, name: &str, value: &str) -> Result<Setting> {
    match read(alloc, name, value) {
        Ok(setting) => Ok(setting),
        Err(_) => bail!("no value of an option"),
    }
}

// A value of an option, as `split=3`.
fn setting(alloc: Global, word: &str) -> Result<Setting> {
    let (name, value) = word.split_once('=').unwrap_or((word, ""));
    value_of(alloc, name, value)
}

fn set_option(alloc: Global, options: &mut Options, word: &str) -> Result<()> {
    options.apply(setting(alloc, word)?);
    Ok(())
}

// These options, and for all others their defaults.
fn options_of(alloc: Global, values: &str) -> Result<Options> {
    let mut options = Options::new(alloc)?;
    for word in values.split(' ') {
        if !word.is_empty() {
            set_option(alloc, &mut options, word)?;
        }
    }
    Ok(options)
}

/// A run with these options, in which nothing happened.
pub fn begun(alloc: Global, values: &str) -> Result<Rig> {
    Ok(Rig::new(alloc, options_of(alloc, values)?)?)
}

// The first download that a key names, of those that were added.
fn gid_of(rig: &Rig, key: GidKey) -> Option<Gid> {
    for place in 0..64 {
        let gid = rig.added(place)?;
        if key.names(gid) {
            return Some(gid);
        }
    }
    None
}

// A download of one mirror is added.
fn add_uri(alloc: Global, rig: &mut Rig, url: &str) -> Result<Answer, AllocError> {
    let call = uri_call(alloc, url)?;
    Ok(Answer::Called(rig.call(alloc, call)?))
}

// A download of a metainfo file is added.
fn add_metainfo(alloc: Global, rig: &mut Rig, bytes: &[u8]) -> Result<Answer, AllocError> {
    let call = torrent_call(alloc, bytes)?;
    Ok(Answer::Called(rig.call(alloc, call)?))
}

// A metainfo file by its words.
fn metainfo_of(alloc: Global, words: &[&str]) -> Result<String> {
    let [name, piece_len, lens, hosts] = words else {
        bail!("a name, lengths and hosts are wanted");
    };
    let lens = numbers(alloc, lens)?;
    Ok(metainfo(alloc, name, small_number_of(piece_len)?, &lens, hosts)?)
}

fn add_torrent(alloc: Global, rig: &mut Rig, words: &[&str]) -> Result<Answer> {
    let text = metainfo_of(alloc, words)?;
    Ok(add_metainfo(alloc, rig, text.as_bytes())?)
}

// A global option changes.
fn change_run(alloc: Global, rig: &mut Rig, setting: Setting) -> Result<Answer, AllocError> {
    let call = global_call(alloc, setting)?;
    Ok(Answer::Called(rig.call(alloc, call)?))
}

// A call of the run.
fn call_run(alloc: Global, rig: &mut Rig, name: &str) -> Result<Answer> {
    match run_call(name) {
        Some(call) => Ok(Answer::Called(rig.call(alloc, Some(call))?)),
        None => bail!("no step of a run"),
    }
}

fn pass(rig: &mut Rig, ms: u64) -> Answer {
    rig.pass(ms);
    Answer::Nothing
}

// A step of the run.
fn of_run(alloc: Global, rig: &mut Rig, name: &str, words: &[&str]) -> Result<Answer> {
    match name {
        "uri" => Ok(add_uri(alloc, rig, word(words, 0)?)?),
        "torrent" => add_torrent(alloc, rig, words),
        "global" => Ok(change_run(alloc, rig, setting(alloc, word(words, 0)?)?)?),
        "pass" => Ok(pass(rig, number(words, 0)?)),
        "clash-next" => Ok(Answer::Clash(rig.clash_next(alloc)?)),
        "stop" => Ok(Answer::Came(rig.stop())),
        "notices" => Ok(Answer::Told(rig.notices(alloc)?)),
        _ => call_run(alloc, rig, name),
    }
}

fn taken(alloc: Global, rig: &mut Rig, name: &str, worker: u32) -> Result<Taken, AllocError> {
    match name {
        "take" => rig.take(alloc, worker, true),
        "wrong" => rig.take(alloc, worker, false),
        _ => rig.hand(alloc, worker),
    }
}

// A step of a worker.
fn of_worker(alloc: Global, rig: &mut Rig, name: &str, words: &[&str]) -> Result<Answer> {
    let worker = small_number(words, 0)?;
    Ok(Answer::Taken(Some(taken(alloc, rig, name, worker)?)))
}

// The run of blocks that the second and the third word write.
fn run_of(words: &[&str]) -> Result<Run> {
    Ok(Run {
        first: small_number(words, 1)?,
        count: small_number(words, 2)?,
    })
}

// A step of a claim.
fn of_claim(rig: &mut Rig, name: &str, words: &[&str]) -> Result<Answer> {
    let claim = number(words, 0)?;
    match name {
        "lose" => Ok(Answer::Came(rig.lose(claim)?)),
        "size" => Ok(Answer::Came(rig.size(claim, number(words, 1)?)?)),
        "allow" => Ok(Answer::Let(rig.allow(claim, small_number(words, 1)?))),
        _ => Ok(Answer::Landed(rig.land(claim, run_of(words)?)?)),
    }
}

// The blocks that a step may name.
fn landed_of(alloc: Global, words: &[&str]) -> Result<Vec<u32>> {
    match words.first() {
        Some(word) => numbers(alloc, word),
        None => Ok(Vec::new(alloc)),
    }
}

fn open(alloc: Global, rig: &mut Rig, gid: Gid, words: &[&str]) -> Result<Answer> {
    let landed = landed_of(alloc, words)?;
    Ok(Answer::Came(rig.open(alloc, gid, &landed)?))
}

fn seal(alloc: Global, rig: &mut Rig, gid: Gid, words: &[&str]) -> Result<Answer> {
    let piece = small_number(words, 0)?;
    let right = words.get(1) == Some(&"right");
    Ok(Answer::Taken(rig.seal(alloc, gid, piece, right)?))
}

fn check(alloc: Global, rig: &mut Rig, gid: Gid, words: &[&str]) -> Result<Answer, AllocError> {
    let right = words.first() == Some(&"right");
    Ok(Answer::Came(rig.check(alloc, gid, right)?))
}

fn change(alloc: Global, rig: &mut Rig, gid: Gid, words: &[&str]) -> Result<Answer> {
    let setting = setting(alloc, word(words, 0)?)?;
    Ok(Answer::Called(rig.change(alloc, gid, setting)?))
}

// A step by which a download may end.
fn of_end(alloc: Global, rig: &mut Rig, name: &str, gid: Gid) -> Result<Answer, AllocError> {
    match name {
        "save" => Ok(Answer::Came(rig.save(gid)?)),
        "complete" => Ok(Answer::Came(rig.complete(gid)?)),
        "fail" => Ok(Answer::Came(rig.fail(gid)?)),
        _ => Ok(Answer::Clash(rig.machine().clash(alloc, gid)?)),
    }
}

// A step of a download.
fn of_download(
    alloc: Global,
    rig: &mut Rig,
    name: &str,
    gid: Gid,
    words: &[&str],
) -> Result<Answer> {
    match name {
        "open" => open(alloc, rig, gid, words),
        "sum" => Ok(check(alloc, rig, gid, words)?),
        "die" => Ok(Answer::Dead(rig.die(gid, small_number(words, 0)?)?)),
        "seal" => seal(alloc, rig, gid, words),
        "change" => change(alloc, rig, gid, words),
        _ => Ok(of_end(alloc, rig, name, gid)?),
    }
}

// A step of the download that a key names, where there is one.
fn of_named(
    alloc: Global,
    rig: &mut Rig,
    name: &str,
    key: GidKey,
    words: &[&str],
) -> Result<Answer> {
    if let Some(call) = keyed_call(name, key) {
        return Ok(Answer::Called(rig.call(alloc, Some(call))?));
    }
    match gid_of(rig, key) {
        Some(gid) => of_download(alloc, rig, name, gid, words),
        None => Ok(Answer::NoDownload),
    }
}

fn of_key(alloc: Global, rig: &mut Rig, name: &str, words: &[&str]) -> Result<Answer> {
    let [word, words @ ..] = words else {
        bail!("a key is wanted");
    };
    match GidKey::read(word) {
        Some(key) => of_named(alloc, rig, name, key, words),
        None => bail!("no key"),
    }
}

fn answer(alloc: Global, rig: &mut Rig, name: &str, words: &[&str]) -> Result<Answer> {
    if OF_KEYS.contains(&name) {
        return of_key(alloc, rig, name, words);
    }
    match name {
        "take" | "wrong" | "hand" => of_worker(alloc, rig, name, words),
        "land" | "lose" | "size" | "allow" => of_claim(rig, name, words),
        _ => of_run(alloc, rig, name, words),
    }
}

fn answer_of(alloc: Global, rig: &mut Rig, line: &str) -> Result<Answer> {
    let words: Vec<&str> = line.split(' ').collect(alloc)?;
    match words.as_slice() {
        [name, words @ ..] => answer(alloc, rig, name, words),
        [] => bail!("a word is wanted"),
    }
}

/// What is told after a step.
pub fn told(alloc: Global, rig: &mut Rig, line: &str) -> Result<String> {
    let answer = answer_of(alloc, rig, line)?;
    Ok(told_after(alloc, rig, answer)?)
}
