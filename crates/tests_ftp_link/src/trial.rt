// Lines of cases, each carried out behind the lines before it.
use crate::scripted::ScriptedLink;
use dl_kinds::Text;
use ftp_link::{FtpRoom, FtpTalk, Loss, probe};
use ftp_places::FtpPlace;
use span_map::JobPart;
use std::alloc::Global;
use std::test::Fail;

/// A server with one file.
#[derive(Drop)]
pub struct Trial {
    alloc: Global,
    url: Text,
    replies: Vec<Vec<u8>>,
    file: Vec<u8>,
    // How many bytes come at once, in a run for each.
    cuts: Vec<u32>,
}

fn cuts_of(alloc: Global, words: &str) -> Result<Vec<u32>, Fail> {
    let mut cuts = Vec::new(alloc);
    for word in words.split(' ') {
        cuts.push(word.parse::<u32>()?)?;
    }
    Ok(cuts)
}

// What a loss says.
fn shown(alloc: Global, loss: Loss) -> Result<String, Fail> {
    Ok(match loss {
        Loss::Link { count } => format!(in alloc; "link {count}")?,
        Loss::NotFound => String::from_str(alloc, "not found")?,
        Loss::Refused { status, code } => format!(in alloc; "refused {status} {}", code.0)?,
        Loss::BadReply => String::from_str(alloc, "bad reply")?,
        Loss::Length { told, want } => format!(in alloc; "length {told} for {want}")?,
        Loss::Short { got } => format!(in alloc; "short {got}")?,
        Loss::Redirects => String::from_str(alloc, "redirects")?,
        Loss::NoMemory => String::from_str(alloc, "memory")?,
    })
}

// The numbers of a part: `3+2/9`.
fn part_of(url: Text, word: &str) -> Result<JobPart, Fail> {
    let (at, rest) = word.split_once('+').ok_or("a part is wanted")?;
    let (len, total) = rest.split_once('/').ok_or("a part is wanted")?;
    Ok(JobPart {
        url,
        at: at.parse::<u64>()?,
        len: len.parse::<u64>()?,
        total: total.parse::<u64>()?,
    })
}

impl Trial {
    /// Before the first line.
    pub fn new(alloc: Global) -> Result<Trial, Fail> {
        Ok(Trial {
            alloc,
            url: Text::of(alloc, "")?,
            replies: Vec::new(alloc),
            file: Vec::new(alloc),
            cuts: Vec::new(alloc),
        })
    }

    // A link to the server, which gives at most so many bytes at once.
    fn link(&self, cut: u32) -> Result<ScriptedLink, Fail> {
        let mut replies = Vec::new(self.alloc);
        for reply in self.replies.iter() {
            replies.push(reply.as_slice().to_vec(self.alloc)?)?;
        }
        let file = self.file.as_slice().to_vec(self.alloc)?;
        Ok(ScriptedLink::new(self.alloc, replies, file, cut as usize))
    }

    fn place(&self) -> Result<FtpPlace, Fail> {
        Ok(
            FtpPlace::of(self.alloc, self.url.as_str())
                .ok()
                .ok_or("no URL of FTP")?,
        )
    }

    // What came of a part, read by so many bytes at once.
    fn read(&self, link: &mut ScriptedLink, word: &str, allow: u32) -> Result<String, Fail> {
        let url = Text::of(self.alloc, self.url.as_str())?;
        let part = part_of(url, word)?;
        if part.len == 0 || part.at > part.total || part.len > part.total - part.at || allow == 0 {
            return Err("no part")?;
        }
        let room = FtpRoom::new(self.alloc)?;
        let mut talk = FtpTalk::new(part, self.place()?, room);
        let mut came = Vec::with_capacity(self.alloc, 4096)?;
        let mut taken: u64 = 0;
        for _ in 0..100_000 {
            let spare = came.capacity() - came.len();
            if spare == 0 {
                return Err("too much came")?;
            }
            match talk.read(self.alloc, link, &mut came, spare, allow) {
                Ok(read) => {
                    taken = taken.saturating_add(u64::from(read.taken));
                    if read.done {
                        return self.came(&came, "all came", taken);
                    }
                }
                Err(loss) => {
                    taken = taken.saturating_add(u64::from(talk.taken()));
                    let loss = shown(self.alloc, loss)?;
                    return self.came(&came, loss.as_str(), taken);
                }
            }
        }
        Err("it doesn't end")?
    }

    fn came(&self, bytes: &[u8], how: &str, taken: u64) -> Result<String, Fail> {
        let text = str::from_utf8(bytes).ok().ok_or("no text")?;
        Ok(format!(in self.alloc; "{how}: {text}: {taken} bytes")?)
    }

    // What is told of the length.
    fn length(&self, link: &mut ScriptedLink) -> Result<String, Fail> {
        let mut room = FtpRoom::new(self.alloc)?;
        match probe(self.alloc, link, &self.place()?, &mut room) {
            Ok(size) => Ok(format!(in self.alloc; "length {size}")?),
            Err(loss) => shown(self.alloc, loss),
        }
    }

    // What comes of a part, or of the length where there is none, over links of each kind: each thing once.
    fn runs(&self, word: &str) -> Result<String, Fail> {
        let mut told: Vec<String> = Vec::new(self.alloc);
        for cut in self.cuts.iter() {
            let mut link = self.link(*cut)?;
            let came = if word.is_empty() {
                self.length(&mut link)?
            } else {
                self.read(&mut link, word, *cut)?
            };
            let calls = link.list().replace(self.alloc, "\r\n", "|")?;
            let text = format!(in self.alloc; "{} <{}>", came.as_str(), calls.as_str())?;
            if !told.contains(&text) {
                told.push(text)?;
            }
        }
        self.joined(&told)
    }

    fn joined(&self, texts: &[String]) -> Result<String, Fail> {
        let mut text = String::new(self.alloc);
        for one in texts {
            let line = if text.is_empty() { "" } else { "\n  " };
            write!(text, "{line}{}", one.as_str())?;
        }
        Ok(text)
    }

    /// What comes of a line, if it asks something.
    pub fn told(&mut self, line: &str) -> Result<Option<String>, Fail> {
        if line.is_empty() || line.starts_with('#') {
            return Ok(None);
        }
        let (word, rest) = line.split_once(' ').unwrap_or((line, ""));
        match word {
            "url" => self.url = Text::of(self.alloc, rest)?,
            "file" => self.file = rest.as_bytes().to_vec(self.alloc)?,
            "script" => self.replies = Vec::new(self.alloc),
            "say" => {
                let text = rest.replace(self.alloc, '|', "\r\n")?;
                self.replies.push(text.into_bytes())?;
            }
            "cuts" => self.cuts = cuts_of(self.alloc, rest)?,
            "part" => return Ok(Some(self.runs(rest)?)),
            "length" => return Ok(Some(self.runs("")?)),
            _ => return Err("no line of a case")?,
        }
        Ok(None)
    }
}
