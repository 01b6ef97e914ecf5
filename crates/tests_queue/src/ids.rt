// Ids of downloads and fronts of them, as the RPC interface spells them.
use dl_kinds::{Gid, GidKey};
use std::alloc::Global;
use test_lines::{Output, spelled_text, word};

/// What a line asks of an id.
#[derive(Clone, Copy)]
pub enum IdLine {
    Gid,
    Key,
    Names,
}

fn add_gid(text: &str, output: &mut Output) {
    match Gid::read(text) {
        Some(gid) => {
            output.counted("= ", gid.0);
            output.text(" ");
            output.text(str::from_utf8(&gid.text()).unwrap_or(""));
        }
        None => output.text("none"),
    }
}

fn add_key(text: &str, output: &mut Output) {
    match GidKey::read(text) {
        Some(key) => {
            output.counted("= ", key.digits as u64);
            output.counted(" ", key.value);
        }
        None => output.text("none"),
    }
}

// Whether the key names the gid, which stands behind a space.
fn names(text: &str) -> Option<bool> {
    let key = GidKey::read(word(text, 0))?;
    let gid = Gid::read(word(text, 1))?;
    Some(key.names(gid))
}

/// Adds what is read of an id.
pub fn add_id(alloc: Global, kind: IdLine, parts: &str, output: &mut Output) {
    let text = spelled_text(alloc, parts);
    match kind {
        IdLine::Gid => add_gid(text.as_str(), output),
        IdLine::Key => add_key(text.as_str(), output),
        IdLine::Names => output.text(match names(text.as_str()) {
            Some(true) => "yes",
            Some(false) => "no",
            None => "none",
        }),
    }
}
