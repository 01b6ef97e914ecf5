// What came of a run, and what is wanted of it.
use crate::link::TestLink;
use crate::spelling::content;
use dl_clock::MemClock;
use dl_disk::MemDisk;
use machine_core::Journal;
use std::alloc::Global;
use std::process::Abort;
use std::str;
use std::test::Fail;

/// What came of a run.
#[derive(Drop)]
pub struct Outcome {
    pub status: u8,
    pub shown: Vec<u8>,
    pub disk: MemDisk,
    pub links: Vec<(TestLink, MemClock)>,
    pub doors: Vec<(u32, MemClock)>,
    pub journal: Journal,
}

// A request for a part of a resource (RFC 9112 section 3, RFC 9110 section 14.1.2), so many times.
fn request_text(alloc: Global, text: &str) -> Result<String, Fail> {
    let mut words = text.split(' ');
    let count = words.next().ok_or("no count")?.parse::<usize>()?;
    let host = words.next().ok_or("no host")?;
    let target = words.next().ok_or("no target")?;
    let range = words.next().ok_or("no range")?;
    let request = format!(in alloc;
        "GET {target} HTTP/1.1\r\nHost: {host}\r\nUser-Agent: aria_cli\r\nAccept: */*\r\nAccept-Encoding: identity\r\nRange: bytes={range}\r\n\r\n"
    )?;
    Ok(request.repeat(alloc, count)?)
}

impl Outcome {
    // The bytes of all requests of a link.
    fn sent(&self, place: usize) -> &[u8] {
        match self.links.get(place) {
            Some((link, _)) => &link.log.sent,
            None => &[],
        }
    }

    /// All requests of the first link.
    pub fn asked(&self) -> &str {
        str::from_utf8(self.sent(0)).unwrap_or("no text")
    }

    // How many requests were sent over the first link.
    fn gets(&self) -> usize {
        self.asked().split("GET /").skip(1).count()
    }

    // How often a link was dialled.
    fn dials(&self, place: usize) -> u32 {
        match self.links.get(place) {
            Some((link, _)) => link.log.dials,
            None => u32::MAX,
        }
    }

    // Asserts what was written.
    fn expect_shown(&self, rt: &impl Abort, want: &str, case: &str) {
        let shown = str::from_utf8(&self.shown).unwrap_or("no text");
        assert_eq!(rt; shown, want, "at {case}");
    }

    // Asserts that just these requests were sent, between which a `+` stands.
    fn expect_asked(
        &self,
        rt: &impl Abort,
        alloc: Global,
        value: &str,
        case: &str,
    ) -> Result<(), Fail> {
        let mut want = String::new(alloc);
        for request in value.split(" + ") {
            want.push_str(request_text(alloc, request)?.as_str())?;
        }
        assert_eq!(rt; self.asked(), want.as_str(), "at {case}");
        Ok(())
    }

    /// Asserts what a file holds, None where there is no such file.
    pub fn expect_file(&self, rt: &impl Abort, name: &str, want: Option<&[u8]>, case: &str) {
        assert!(rt; self.disk.file(name) == want, "the file {name} at {case}");
    }

    // Asserts what one item wants.
    fn expect(
        &self,
        rt: &impl Abort,
        alloc: Global,
        key: &str,
        value: &str,
        case: &str,
    ) -> Result<(), Fail> {
        match key {
            "status" => assert_eq!(rt; self.status, value.parse::<u8>()?, "at {case}"),
            "dials" => assert_eq!(rt; self.dials(0), value.parse::<u32>()?, "at {case}"),
            "sends" => assert_eq!(rt; self.sent(0).len(), value.parse::<usize>()?, "at {case}"),
            "gets" => assert_eq!(rt; self.gets(), value.parse::<usize>()?, "at {case}"),
            "asks" => self.expect_asked(rt, alloc, value, case)?,
            "error" => {
                let want = format!(in alloc; "error {value}\n")?;
                self.expect_shown(rt, &want, case);
            }
            "shows" => {
                let want = format!(in alloc; "gid|stat|completed|total|code|path\n{value}\n")?;
                self.expect_shown(rt, &want, case);
            }
            "heading" => {
                self.expect_shown(rt, "gid|stat|completed|total|code|path\n", case);
            }
            "silent" => self.expect_shown(rt, "", case),
            "file" => {
                let (name, bytes) = value.split_once('=').ok_or("no bytes")?;
                self.expect_file(rt, name, Some(&content(alloc, bytes)?), case);
            }
            "control" => {
                let (name, digits) = value.split_once('=').ok_or("no digits")?;
                self.expect_file(rt, name, Some(&hex::decode(alloc, digits)?), case);
            }
            "none" => self.expect_file(rt, value, None, case),
            _ => {}
        }
        Ok(())
    }

    /// Asserts what these items want, that the first link alone was used, that the doors are there, and
    /// that the file `other` stands as it did.
    pub fn check(&self, rt: &impl Abort, alloc: Global, items: &str) -> Result<(), Fail> {
        assert_eq!(rt; self.dials(1), 0, "at {items}");
        assert_eq!(rt; self.doors.len(), 1, "at {items}");
        self.expect_file(rt, "other", Some(b"other"), items);
        for item in items.split(" ; ") {
            let (key, value) = item.split_once(' ').unwrap_or((item, ""));
            self.expect(rt, alloc, key, value, items)?;
        }
        Ok(())
    }
}
