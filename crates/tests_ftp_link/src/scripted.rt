// A link to a server that says what a script has, and lists what is asked of it.
ghost use Rattle.std.specs.Prelude.{◌≤◌, length};
ghost use Rattle.link_source.specs.Link.{no_link};

use dl_kinds::IoErr;
use link_source::Links;
use std::alloc::Global;

#[derive(Debug, Drop)]
pub struct ScriptedLink {
    /// What is said behind each thing that is sent, in order. Behind the last of them the connection ends.
    replies: Vec<Vec<u8>>,
    next: usize,
    /// What the data connection gives.
    file: Vec<u8>,
    /// How many bytes come at once.
    cut: usize,
    /// How many bytes of the newest reply were given, and of the data.
    heard: usize,
    taken: usize,
    /// What was called, and what was sent.
    list: String,
}

// The next bytes from a place on, as many as fit.
fn give(bytes: &[u8], at: usize, cut: usize, into: &mut [u8]) -> usize
    ensures { result ≤ length into.new }
{
    let left = bytes.get(at..).unwrap_or(b"");
    let count = left.len().min(cut).min(into.len());
    into[..count].copy_from_slice(&left[..count]);
    count
}

impl ScriptedLink {
    pub fn new(alloc: Global, replies: Vec<Vec<u8>>, file: Vec<u8>, cut: usize) -> Self {
        ScriptedLink {
            replies,
            next: 0,
            file,
            cut,
            heard: 0,
            taken: 0,
            list: String::new(alloc),
        }
    }

    pub fn list(&self) -> &str {
        self.list.as_str()
    }

    // The newest reply.
    fn reply(&self) -> &[u8] {
        match self.replies.get(self.next.saturating_sub(1)) {
            Some(reply) => reply,
            None => b"",
        }
    }
}

// It never fails, and tells nothing.
impl Links for ScriptedLink {
    ghost use Rattle.std.specs.Prelude.{false};
    ghost use Rattle.link_source.specs.Link.{no_link};

    ghost tells = { false };

    ghost state = { λ _. no_link };

    ghost faults = { λ _. 0 };

    fn faults(&self) -> u64 {
        0
    }

    fn dial(&mut self, host: &str, port: u16) -> Result<(), IoErr> {
        write!(self.list, "dial {host} {port}|")?;
        Ok(())
    }

    fn send(&mut self, bytes: &[u8]) -> Result<(), IoErr> {
        match str::from_utf8(bytes) {
            Ok(text) => write!(self.list, "{text}")?,
            Err(_) => return Err(IoErr::NoMemory),
        }
        self.next = self.next.saturating_add(1);
        self.heard = 0;
        Ok(())
    }

    fn recv(&mut self, into: &mut [u8]) -> Result<usize, IoErr> {
        let count = give(self.reply(), self.heard, self.cut, into);
        self.heard = self.heard.saturating_add(count);
        Ok(count)
    }

    fn dial_data(&mut self, port: u16) -> Result<(), IoErr> {
        write!(self.list, "data {port}|")?;
        Ok(())
    }

    fn recv_data(&mut self, into: &mut [u8]) -> Result<usize, IoErr> {
        let count = give(&self.file, self.taken, self.cut, into);
        self.taken = self.taken.saturating_add(count);
        Ok(count)
    }

    fn hang_up(&mut self) {}
}
