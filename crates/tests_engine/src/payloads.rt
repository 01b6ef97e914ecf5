// Metainfo files and payloads, by the lines that tell of them.
use crate::letters;
use anyhow::{Context, Result, ensure};
use std::alloc::Global;

/// The most bytes of a metainfo file.
pub const MOST: usize = 1_000_000;

/// Bytes by their names.
#[derive(Drop)]
pub struct Named {
    alloc: Global,
    named: Vec<(String, Vec<u8>)>,
}

impl Named {
    pub fn new(alloc: Global) -> Named {
        Named {
            alloc,
            named: Vec::new(alloc),
        }
    }

    fn push(&mut self, name: &str, bytes: Vec<u8>) -> Result<()> {
        let name = String::from_str(self.alloc, name)?;
        self.named.push((name, bytes))?;
        Ok(())
    }

    // The bytes of a name.
    fn get(&self, name: &str) -> Option<&[u8]> {
        for (known, bytes) in self.named.iter() {
            if known.as_str() == name {
                return Some(bytes.as_slice());
            }
        }
        None
    }
}

/// The metainfo files that can be added, and what mirrors have at URLs.
#[derive(Drop)]
pub struct Payloads {
    alloc: Global,
    metainfo: Named,
    mirrored: Named,
}

// The bytes of a metainfo file: text, hexadecimal digits between `#`, and text.
fn parts_of(alloc: Global, text: &str) -> Result<Vec<u8>> {
    let (head, rest) = text.split_once('#').context("digests are wanted")?;
    let (digits, tail) = rest.split_once('#').context("a tail is wanted")?;
    let mut bytes = head.as_bytes().to_vec(alloc)?;
    bytes.extend_from_slice(&hex::decode(alloc, digits)?)?;
    bytes.extend_from_slice(tail.as_bytes())?;
    Ok(bytes)
}

impl Payloads {
    pub fn new(alloc: Global) -> Payloads {
        Payloads {
            alloc,
            metainfo: Named::new(alloc),
            mirrored: Named::new(alloc),
        }
    }

    /// Notes a metainfo file: its name, and its parts.
    pub fn add_metainfo(&mut self, line: &str) -> Result<()> {
        let (name, parts) = line.split_once(' ').context("parts are wanted")?;
        let bytes = parts_of(self.alloc, parts)?;
        self.metainfo.push(name, bytes)
    }

    /// Notes what a mirror has: a URL, and letters.
    pub fn add_mirrored(&mut self, line: &str) -> Result<()> {
        let (url, text) = line.split_once(' ').context("letters are wanted")?;
        let bytes = letters::read(self.alloc, text)?;
        self.mirrored.push(url, bytes)
    }

    /// The metainfo file of a name.
    pub fn metainfo(&self, name: &str) -> Result<&[u8]> {
        Ok(self.metainfo.get(name).context("no metainfo file")?)
    }

    /// What a mirror has at a URL.
    pub fn mirrored(&self, url: &str) -> Result<&[u8]> {
        Ok(self.mirrored.get(url).context("no mirror has it")?)
    }
}
