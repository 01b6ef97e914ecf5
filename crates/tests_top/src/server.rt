// A server that says what a case has, whatever it is asked.
ghost use Rattle.std.specs.Prelude.{◌≡◌, ◌≤◌, length, IfOk};
ghost use Rattle.dl_kinds.specs.Causes.{HasCause};
ghost use Rattle.link_source.specs.Link.{no_link};

use dl_kinds::IoErr;
use link_source::Links;
use std::alloc::{AllocError, Global};
use test_lines::{spelled, u64_at};

/// What a server says.
#[derive(Drop)]
pub struct Server {
    alloc: Global,
    /// What is said to each request.
    replies: Vec<Vec<u8>>,
    /// What each connection for data gives.
    data: Vec<Vec<u8>>,
    /// Whether it falls silent behind a text, rather than that it ends the connection.
    is_silent: bool,
}

fn len_of(texts: &[Vec<u8>]) -> usize {
    let mut len: usize = 0;
    for text in texts {
        len = len.saturating_add(text.len());
    }
    len
}

impl Server {
    /// It says nothing.
    pub fn new(alloc: Global) -> Server {
        Server {
            alloc,
            replies: Vec::new(alloc),
            data: Vec::new(alloc),
            is_silent: false,
        }
    }

    /// How many bytes it says.
    pub fn len(&self) -> usize {
        len_of(&self.replies).saturating_add(len_of(&self.data))
    }

    /// A link by which so many of its bytes come, the replies before the data, in such pieces.
    pub fn link(&self, most: usize, piece: usize) -> ServerLinks<'_> {
        ServerLinks {
            replies: Texts::new(&self.replies, most),
            data: Texts::new(&self.data, most.saturating_sub(len_of(&self.replies))),
            is_silent: self.is_silent,
            piece,
            faults: 0,
        }
    }

    // The newest reply once more.
    fn add_again(&mut self) -> Result<(), AllocError> {
        if let Some(reply) = self.replies.last() {
            let copy = reply.clone()?;
            self.replies.push(copy)?;
        }
        Ok(())
    }

    /// Takes a line that tells what it says.
    pub fn take(&mut self, key: &str, line: &str) -> Result<(), AllocError> {
        match key {
            "reply" => self.replies.push(spelled(self.alloc, line))?,
            "data" => self.data.push(spelled(self.alloc, line))?,
            "silent" => self.is_silent = true,
            "again" => {
                for _ in 0..u64_at(line, 0) {
                    self.add_again()?;
                }
            }
            _ => {}
        }
        Ok(())
    }
}

// Texts that are given one behind the other, and behind the last one the first again.
#[derive(Drop)]
struct Texts<'a> {
    texts: &'a [Vec<u8>],
    // The number of the newest text, counted from 1.
    newest: usize,
    // What comes of it, as far as it wasn't given yet.
    due: &'a [u8],
    // How many bytes come of those behind it.
    left: usize,
}

impl<'a> Texts<'a> {
    fn new(texts: &'a [Vec<u8>], most: usize) -> Self {
        Texts {
            texts,
            newest: 0,
            due: &[],
            left: most,
        }
    }

    fn begin_next(&mut self) {
        let is_last = self.newest >= self.texts.len();
        self.newest = if is_last {
            1
        } else {
            self.newest.saturating_add(1)
        };
        let text = match self.texts.get(self.newest.wrapping_sub(1)) {
            Some(text) => text.as_slice(),
            None => &[],
        };
        let count = text.len().min(self.left);
        self.due = &text[..count];
        self.left = self.left.saturating_sub(count);
    }

    fn give(&mut self, piece: usize, into: &mut [u8]) -> usize
        ensures { result ≤ length into.new }
    {
        let due = self.due;
        let count = due.len().min(piece).min(into.len());
        into[..count].copy_from_slice(&due[..count]);
        self.due = &due[count..];
        count
    }
}

/// A link to a server.
#[derive(Drop)]
pub struct ServerLinks<'a> {
    replies: Texts<'a>,
    data: Texts<'a>,
    is_silent: bool,
    piece: usize,
    faults: u64,
}

impl<'a> ServerLinks<'a> {
    // What comes of a call that received so many bytes. Silence is a fault, as it is once a real link has waited for long.
    fn received(&mut self, count: usize) -> Result<usize, IoErr>
        ensures count { IfOk result (λ received. received ≡ count) }
        ensures cause { HasCause self.old.faults self.new.faults result }
    {
        if count == 0 && self.is_silent {
            self.faults = self.faults.saturating_add(1);
            return Err(IoErr::Fault);
        }
        Ok(count)
    }
}

// It tells only when it failed.
impl<'a> Links for ServerLinks<'a> {
    ghost use Rattle.std.specs.Prelude.{false};
    ghost use Rattle.link_source.specs.Link.{no_link};

    ghost tells = { false };

    ghost state = { λ _. no_link };

    ghost faults = { λ link. link.faults };

    fn faults(&self) -> u64 {
        self.faults
    }

    fn dial(&mut self, _host: &str, _port: u16) -> Result<(), IoErr> {
        Ok(())
    }

    fn send(&mut self, _bytes: &[u8]) -> Result<(), IoErr> {
        self.replies.begin_next();
        Ok(())
    }

    fn recv(&mut self, into: &mut [u8]) -> Result<usize, IoErr> {
        let count = self.replies.give(self.piece, into);
        self.received(count)
    }

    fn dial_data(&mut self, _port: u16) -> Result<(), IoErr> {
        self.data.begin_next();
        Ok(())
    }

    fn recv_data(&mut self, into: &mut [u8]) -> Result<usize, IoErr> {
        let count = self.data.give(self.piece, into);
        self.received(count)
    }

    fn hang_up(&mut self) {}
}
