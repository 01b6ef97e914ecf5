// Lines of cases, each carried out behind the lines before it.
use crate::fetching::{URL, bring, job, mirror};
use crate::listed::{Closes, ListedLink};
use dl_kinds::Plan;
use fetch_session::{FetchRoom, probe};
use link_source::{Manner, MemLinks};
use std::alloc::Global;
use std::test::Fail;

/// A payload at one mirror, and how the mirror gives it.
#[derive(Drop)]
pub struct Trial {
    alloc: Global,
    plan: Plan,
    payload: Vec<u8>,
    manner: Manner,
    closes: Closes,
    // How many bytes the mirror gives at once, in a run for each.
    cuts: Vec<u32>,
    // What all requests begin with, which isn't shown.
    head: Vec<u8>,
}

// Bytes that differ from their neighbours.
fn counted(alloc: Global, total: u32) -> Result<Vec<u8>, Fail> {
    let mut bytes = Vec::new(alloc);
    for place in 0..total {
        bytes.push((place % 251) as u8)?;
    }
    Ok(bytes)
}

// So many bytes, or the bytes of a word.
fn payload_of(alloc: Global, word: &str) -> Result<Vec<u8>, Fail> {
    match word.parse::<u32>() {
        Ok(total) => counted(alloc, total),
        Err(_) => Ok(word.as_bytes().to_vec(alloc)?),
    }
}

fn manner_of(word: &str) -> Result<Manner, Fail> {
    Ok(match word {
        "ranges" => Manner::Ranges,
        "whole" => Manner::Whole,
        "chunked" => Manner::Chunked,
        "to-end" => Manner::ToEnd,
        _ => return Err("no manner")?,
    })
}

fn closes_of(word: &str) -> Result<Closes, Fail> {
    Ok(match word {
        "never" => Closes::Never,
        "behind-reply" => Closes::BehindReply,
        "before-request" => Closes::BeforeRequest,
        _ => return Err("no way to close")?,
    })
}

fn cuts_of(alloc: Global, words: &str) -> Result<Vec<u32>, Fail> {
    let mut cuts = Vec::new(alloc);
    for word in words.split(' ') {
        cuts.push(word.parse::<u32>()?)?;
    }
    Ok(cuts)
}

// The numbers of a run: `3+2`.
fn run_of(word: &str) -> Result<(u32, u32), Fail> {
    let (first, count) = word.split_once('+').ok_or("a run is wanted")?;
    Ok((first.parse::<u32>()?, count.parse::<u32>()?))
}

impl Trial {
    /// Before the first line.
    pub fn new(alloc: Global) -> Result<Trial, Fail> {
        Ok(Trial {
            alloc,
            plan: Plan::new(1, 1).ok_or("no plan")?,
            payload: Vec::new(alloc),
            manner: Manner::Ranges,
            closes: Closes::Never,
            cuts: Vec::new(alloc),
            head: Vec::new(alloc),
        })
    }

    // The payload, and the length of its pieces.
    fn set_payload(&mut self, rest: &str) -> Result<(), Fail> {
        let (payload, piece_len) = rest.split_once(' ').ok_or("a length is wanted")?;
        self.payload = payload_of(self.alloc, payload)?;
        let total = self.payload.len() as u64;
        self.plan = Plan::new(total, piece_len.parse::<u32>()?).ok_or("no plan")?;
        Ok(())
    }

    // A link to the mirror, which gives at most `cut` bytes at once.
    fn link(&self, cut: u32) -> Result<ListedLink, Fail> {
        if cut == 0 {
            return Err("no cut")?;
        }
        let mut mirrors = Vec::new(self.alloc);
        mirrors.push(mirror(self.alloc, self.manner, &self.payload)?)?;
        let none = Vec::new(self.alloc);
        let mirrors = MemLinks::new(self.alloc, mirrors, none, cut, Vec::new(self.alloc))?;
        Ok(ListedLink::new(self.alloc, mirrors, self.closes))
    }

    // The bytes of a run.
    fn wanted(&self, first: u32, count: u32) -> Result<&[u8], Fail> {
        let len = self.plan.piece_len.min(16_384) as usize;
        let start = (first as usize).saturating_mul(len);
        let end = start.saturating_add((count as usize).saturating_mul(len));
        let wanted = self.payload.get(start..end.min(self.payload.len()));
        Ok(wanted.ok_or("no bytes")?)
    }

    // What came of runs of the payload, one fetch after the other: whether it is the payload's.
    fn fetch(&self, link: &mut ListedLink, runs: &str) -> Result<bool, Fail> {
        let mut room = FetchRoom::new(self.alloc)?;
        let mut is_right = true;
        for run in runs.split(' ') {
            if run == "probe" {
                let total = probe(self.alloc, link, URL, &mut room)
                    .ok()
                    .ok_or("a loss")?;
                is_right = is_right && total == self.plan.total;
                continue;
            }
            let (first, count) = run_of(run)?;
            let mut came = Vec::new(self.alloc);
            let job = job(self.alloc, self.plan, first, count)?;
            match bring(self.alloc, link, room, job, &mut came) {
                Ok(back) => room = back,
                Err(_) => return Err("a loss")?,
            }
            is_right = is_right && came.as_slice() == self.wanted(first, count)?;
        }
        Ok(is_right)
    }

    // The calls of a link, a word each: a dial, or what stands behind the head of a request.
    fn shown(&self, list: &[u8]) -> Result<String, Fail> {
        let head = str::from_utf8(&self.head).ok().ok_or("no text")?;
        let list = str::from_utf8(list).ok().ok_or("no text")?;
        let list = list.replace(self.alloc, "dial m.test\r\n", "dial ")?;
        let list = list.replace(self.alloc, head, "")?;
        let list = list.replace(self.alloc, "\r\n\r\n", " ")?;
        Ok(list.replace(self.alloc, "\r\n", "|")?)
    }

    // What comes of runs over mirrors that give their bytes in each of the ways: each thing once.
    fn fetches(&self, runs: &str) -> Result<String, Fail> {
        let mut told: Vec<String> = Vec::new(self.alloc);
        for cut in self.cuts.iter() {
            let mut link = self.link(*cut)?;
            let is_right = self.fetch(&mut link, runs)?;
            let bytes = if is_right {
                "the payload"
            } else {
                "other bytes"
            };
            let calls = self.shown(link.list())?;
            let text = format!(in self.alloc; "{bytes}: {}", calls.as_str().trim_end())?;
            if !told.contains(&text) {
                told.push(text)?;
            }
        }
        self.joined(&told)
    }

    fn joined(&self, texts: &[String]) -> Result<String, Fail> {
        let mut text = String::new(self.alloc);
        for one in texts {
            let line = if text.is_empty() { "" } else { "\n  " };
            write!(text, "{line}{}", one.as_str())?;
        }
        Ok(text)
    }

    /// What comes of a line, if it asks something.
    pub fn told(&mut self, line: &str) -> Result<Option<String>, Fail> {
        if line.is_empty() || line.starts_with('#') {
            return Ok(None);
        }
        let (word, rest) = line.split_once(' ').ok_or("two words are wanted")?;
        match word {
            "head" => self.head = rest.replace(self.alloc, '|', "\r\n")?.into_bytes(),
            "payload" => self.set_payload(rest)?,
            "manner" => self.manner = manner_of(rest)?,
            "closes" => self.closes = closes_of(rest)?,
            "cuts" => self.cuts = cuts_of(self.alloc, rest)?,
            "fetch" => return Ok(Some(self.fetches(rest)?)),
            _ => return Err("no line of a case")?,
        }
        Ok(None)
    }
}
