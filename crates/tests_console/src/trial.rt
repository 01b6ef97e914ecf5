// Lines of cases, each carried out behind the lines before it.
use crate::console::{Console, WHOLE};
use crate::messages::{content_of, one_client, posted, shown_response};
use crate::spelling::{repeated, shown};
use anyhow::{Result, bail};
use dl_kinds::Blob;
use std::alloc::Global;
use std::mem::replace;
use std::sync::Wait;

/// A run that lines go on with.
#[derive(Drop)]
pub struct Trial {
    alloc: Global,
    console: Console,
    // The options of the run, as its line has them.
    words: String,
    // How many bytes come at once, in a connection for each.
    cuts: Vec<u32>,
    // The clients that are to come.
    clients: Vec<Blob>,
    // The contents that were asked in the run, each as a request, and the responses to them.
    asked: Vec<u8>,
    answered: Vec<u8>,
}

fn cuts_of(alloc: Global, words: &str) -> Result<Vec<u32>> {
    let mut cuts = Vec::new(alloc);
    for word in words.split(' ') {
        cuts.push(word.parse::<u32>()?)?;
    }
    Ok(cuts)
}

// The numbers of calls behind `failing `, or none.
fn failing_of(alloc: Global, words: &str) -> Result<Vec<u64>> {
    let mut failing = Vec::new(alloc);
    for word in words.split(' ').skip(1) {
        failing.push(word.parse::<u64>()?)?;
    }
    Ok(failing)
}

fn copies_of(alloc: Global, clients: &[Blob]) -> Result<Vec<Blob>> {
    let mut copies = Vec::new(alloc);
    for client in clients {
        copies.push(client.copy(alloc)?)?;
    }
    Ok(copies)
}

impl Trial {
    /// Before the first line: a run with no options of its own.
    pub fn new(alloc: Global) -> Result<Trial> {
        let mut cuts = Vec::new(alloc);
        cuts.push(WHOLE)?;
        Ok(Trial {
            alloc,
            console: Console::new(alloc, "")?,
            words: String::new(alloc),
            cuts,
            clients: Vec::new(alloc),
            asked: Vec::new(alloc),
            answered: Vec::new(alloc),
        })
    }

    // Another run, with these options.
    fn begin(&mut self, words: &str) -> Result<()> {
        self.console = Console::new(self.alloc, words)?;
        self.words = String::from_str(self.alloc, words)?;
        self.clients.clear();
        self.asked.clear();
        self.answered.clear();
        Ok(())
    }

    // Ends the run, and tells what its history has.
    fn end(&mut self) -> Result<String> {
        let next = Console::new(self.alloc, "")?;
        replace(&mut self.console, next).end(self.alloc)
    }

    // What a client is sent for these bytes, of which so many come at once.
    fn sent_for(&mut self, rt: &impl Wait, bytes: &[u8], cut: u32) -> Result<Vec<u8>> {
        let clients = one_client(self.alloc, bytes.to_vec(self.alloc)?)?;
        let door = self
            .console
            .serve(rt, self.alloc, clients, cut, Vec::new(self.alloc))?;
        Ok(door.sent(0).to_vec(self.alloc)?)
    }

    // The response to a content.
    fn post(&mut self, rt: &impl Wait, content: &[u8]) -> Result<String> {
        let request = posted(self.alloc, content)?;
        let sent = self.sent_for(rt, &request, WHOLE)?;
        self.asked.extend_from_slice(&request)?;
        self.answered.extend_from_slice(&sent)?;
        shown_response(self.alloc, &sent)
    }

    // What a client is sent for these bytes, in each way in which they come.
    fn send(&mut self, rt: &impl Wait, bytes: &[u8]) -> Result<String> {
        let mut told = String::new(self.alloc);
        let mut before: Option<Vec<u8>> = None;
        let cuts = self.cuts.to_vec(self.alloc)?;
        for cut in cuts {
            let sent = self.sent_for(rt, bytes, cut)?;
            if before.as_ref() == Some(&sent) {
                continue;
            }
            if before.is_some() {
                write!(told, " {cut} AT ONCE: ")?;
            }
            told.push_str(shown(self.alloc, &sent)?.as_str())?;
            before = Some(sent);
        }
        Ok(told)
    }

    // What a client is sent for the first of these bytes, for each number of them.
    fn cut_off(&mut self, rt: &impl Wait, bytes: &[u8]) -> Result<String> {
        let mut told = String::new(self.alloc);
        let mut before: Option<Vec<u8>> = None;
        for count in 0..bytes.len() + 1 {
            let sent = self.sent_for(rt, &bytes[..count], WHOLE)?;
            if before.as_ref() != Some(&sent) {
                let shown = shown(self.alloc, &sent)?;
                let line = if count == 0 { "" } else { "\n  " };
                write!(told, "{line}{count} bytes: {shown}")?;
            }
            before = Some(sent);
        }
        Ok(told)
    }

    // The requests of the run come again, one behind another in one connection of a new run, and so many bytes at once.
    fn together(&mut self, rt: &impl Wait, cut: u32) -> Result<String> {
        let asked = self.asked.to_vec(self.alloc)?;
        let mut again = Console::new(self.alloc, self.words.as_str())?;
        let clients = one_client(self.alloc, asked)?;
        let door = again.serve(rt, self.alloc, clients, cut, Vec::new(self.alloc))?;
        let tally = again.end(self.alloc)?;
        let same = if door.sent(0) == self.answered.as_slice() {
            "the same responses"
        } else {
            "OTHER RESPONSES"
        };
        Ok(format!(in self.alloc; "{same}; {tally}")?)
    }

    // A client is to come, with these bytes.
    fn invite(&mut self, bytes: Vec<u8>) -> Result<()> {
        self.clients.push(Blob::wrap(bytes))?;
        Ok(())
    }

    // The clients come, one behind another: what each of them is sent, and how many calls were carried out.
    fn serve(&mut self, rt: &impl Wait, failing: Vec<u64>) -> Result<String> {
        let clients = copies_of(self.alloc, &self.clients)?;
        let before = self.console.calls();
        let door = self.console.serve(rt, self.alloc, clients, WHOLE, failing)?;
        let calls = self.console.calls().saturating_sub(before);
        let mut told = String::new(self.alloc);
        let mut number: u32 = 0;
        for _ in self.clients.iter() {
            let shown = shown(self.alloc, door.sent(number))?;
            number = number.saturating_add(1);
            write!(told, "{number}: {shown}\n  ")?;
        }
        write!(told, "calls: {calls}")?;
        Ok(told)
    }

    // Sets how the next lines are carried out; none for a line that asks something.
    fn set(&mut self, word: &str, rest: &str) -> Result<bool> {
        match word {
            "run" => self.begin(rest)?,
            "pieces" => self.cuts = cuts_of(self.alloc, rest)?,
            "at" => self.console.go_on(rest)?,
            "client" => self.invite(repeated(self.alloc, rest)?)?,
            _ => return Ok(false),
        }
        Ok(true)
    }

    // What comes of a line that asks something.
    fn ask(&mut self, rt: &impl Wait, word: &str, rest: &str) -> Result<String> {
        if let Some(content) = content_of(self.alloc, word, rest)? {
            return self.post(rt, &content);
        }
        match word {
            "send" => self.send(rt, &repeated(self.alloc, rest)?),
            "cut" => self.cut_off(rt, &repeated(self.alloc, rest)?),
            "serve" => self.serve(rt, failing_of(self.alloc, rest)?),
            "worker" => self.console.work(self.alloc, rest),
            "together" => self.together(rt, rest.parse::<u32>()?),
            "end" => self.end(),
            _ => bail!("no line of a case: {word}"),
        }
    }

    /// What comes of a line, if it asks something.
    pub fn told(&mut self, rt: &impl Wait, line: &str) -> Result<Option<String>> {
        if line.is_empty() || line.starts_with('#') {
            return Ok(None);
        }
        let (word, rest) = line.split_once(' ').unwrap_or((line, ""));
        if self.set(word, rest)? {
            return Ok(None);
        }
        Ok(Some(self.ask(rt, word, rest)?))
    }
}
