// What a case gives to its run, line by line.
use crate::gates::{Client, When};
use crate::server::Server;
use dl_kinds::{Blob, Text};
use link_source::{Manner, MemFile, MemMirror};
use std::alloc::{AllocError, Global};
use test_lines::{after, before, keyword, set, spelled, spelled_text, u16_at, u64_at, word};

/// What a run is given.
#[derive(Drop)]
pub struct Rig {
    pub alloc: Global,
    pub words: Vec<String>,
    pub files: Vec<(Text, Blob)>,
    pub mirrors: Vec<MemMirror>,
    /// What answers in the place of mirrors, in the runs of a case that is served.
    pub server: Server,
    /// So many clients have to be answered before the link receives anything.
    pub waits_for: u64,
    /// Whether the mirrors end each connection once the run is over.
    pub leaves: bool,
    /// When the next clients come, and when they end their connections.
    comes: When,
    ends: When,
    /// Whether the next clients come at the other door.
    is_beside: bool,
    pub clients: Vec<Client>,
    /// The clients of the other door.
    pub others: Vec<Client>,
    /// The files whose bytes are told at the end.
    pub shown: Vec<Text>,
    /// A growth was refused, so that something isn't given.
    pub lost: bool,
}

const MANNERS: [(&str, Manner); 4] = [
    ("Ranges", Manner::Ranges),
    ("Whole", Manner::Whole),
    ("Chunked", Manner::Chunked),
    ("ToEnd", Manner::ToEnd),
];

/// The words of a line, each as its parts spell it.
pub fn words_of(alloc: Global, line: &str) -> Result<Vec<String>, AllocError> {
    let mut words = Vec::new(alloc);
    for word in line.split(' ') {
        if !word.is_empty() {
            words.push(spelled_text(alloc, word))?;
        }
    }
    Ok(words)
}

// `TARGET=PARTS`
fn resource(alloc: Global, text: &str) -> Result<(Text, MemFile), AllocError> {
    let bytes = Blob::wrap(spelled(alloc, after(text, '=')));
    Ok((Text::of(alloc, before(text, '='))?, MemFile::Bytes(bytes)))
}

// `HOST PORT MANNER TARGET=PARTS ..`
fn mirror(alloc: Global, line: &str) -> Result<MemMirror, AllocError> {
    let mut files = Vec::new(alloc);
    for text in line.split(' ').skip(3) {
        files.push(resource(alloc, text)?)?;
    }
    Ok(MemMirror {
        host: Text::of(alloc, word(line, 0))?,
        port: u16_at(line, 1),
        files,
        manner: keyword(&MANNERS, word(line, 2), Manner::Ranges),
    })
}

fn when(line: &str) -> When {
    match word(line, 0) {
        "asked" => When::BehindAsking(u64_at(line, 1)),
        "rested" => When::BehindResting(u64_at(line, 1)),
        "ended" => When::BehindEnding(u64_at(line, 1)),
        _ => When::Now,
    }
}

// A request to the console with this content.
fn posted(alloc: Global, content: &str) -> Result<Blob, AllocError> {
    let mut text = String::new(alloc);
    text.push_str("POST /jsonrpc HTTP/1.1\r\nHost: localhost:6800\r\nContent-Length: ")?;
    write!(text, "{}", content.len())?;
    text.push_str("\r\n\r\n")?;
    text.push_str(content)?;
    Blob::of(alloc, text.as_bytes())
}

impl Rig {
    /// Nothing is given.
    pub fn new(alloc: Global) -> Rig {
        Rig {
            alloc,
            words: Vec::new(alloc),
            files: Vec::new(alloc),
            mirrors: Vec::new(alloc),
            server: Server::new(alloc),
            waits_for: 0,
            leaves: false,
            comes: When::Now,
            ends: When::Now,
            is_beside: false,
            clients: Vec::new(alloc),
            others: Vec::new(alloc),
            shown: Vec::new(alloc),
            lost: false,
        }
    }

    fn begin(&mut self, line: &str) -> Result<(), AllocError> {
        let words = words_of(self.alloc, line)?;
        set(self, Rig::new(self.alloc));
        set(&mut self.words, words);
        Ok(())
    }

    fn add_file(&mut self, line: &str) -> Result<(), AllocError> {
        let name = Text::of(self.alloc, word(line, 0))?;
        let bytes = Blob::wrap(spelled(self.alloc, after(line, ' ')));
        self.files.push((name, bytes))?;
        Ok(())
    }

    fn add_client(&mut self, bytes: Blob) -> Result<(), AllocError> {
        let client = Client {
            comes: self.comes,
            ends: self.ends,
            bytes,
        };
        if self.is_beside {
            self.others.push(client)?;
        } else {
            self.clients.push(client)?;
        }
        Ok(())
    }

    fn add(&mut self, key: &str, line: &str) -> Result<(), AllocError> {
        match key {
            "run" => self.begin(line)?,
            "file" => self.add_file(line)?,
            "mirror" => self.mirrors.push(mirror(self.alloc, line)?)?,
            "client" => self.add_client(Blob::wrap(spelled(self.alloc, line)))?,
            "post" => self.add_client(posted(self.alloc, line)?)?,
            "show" => self.shown.push(Text::of(self.alloc, line)?)?,
            _ => self.server.take(key, line)?,
        }
        Ok(())
    }

    /// Takes a line that gives something.
    pub fn take(&mut self, key: &str, line: &str) {
        match key {
            "waits" => self.waits_for = u64_at(line, 0),
            "leave" => self.leaves = true,
            "come" => self.comes = when(line),
            "stay" => self.ends = when(line),
            "beside" => self.is_beside = true,
            _ => {
                if self.add(key, line).is_err() {
                    self.lost = true;
                }
            }
        }
    }
}
