// Metainfo files, and URLs of files at web seeds (BEP 3, BEP 19).
use crate::bencoding::add_fault;
use crate::spelling::{add_shown, spelled};
use dl_kinds::Texts;
use metainfo::{Key, Meta, MetaErr};
use span_map::FileLen;
use std::alloc::Global;
use test_lines::{Output, after, name_of, u32_at, word};

/// More bytes than any case has.
const MOST: usize = 1 << 26;

const KEYS: [(&str, Key); 8] = [
    ("info", Key::Info),
    ("name", Key::Name),
    ("piece length", Key::PieceLength),
    ("pieces", Key::Pieces),
    ("length", Key::Length),
    ("files", Key::Files),
    ("path", Key::Path),
    ("url-list", Key::UrlList),
];

fn add_key(text: &str, key: Key, output: &mut Output) {
    output.text(text);
    output.text(name_of(&KEYS, &key));
}

// Adds the first rule that the bytes break.
fn add_refusal(refused: MetaErr, output: &mut Output) {
    match refused {
        MetaErr::Bencode(error) => add_fault(error, output),
        MetaErr::Lacks(key) => add_key("lacks ", key, output),
        MetaErr::BadKind(key) => add_key("bad ", key, output),
        MetaErr::BadPath(file) => output.counted("bad path ", file as u64),
        MetaErr::DigestCount { have, want } => {
            output.number(have as u64);
            output.counted(" digests for ", want as u64);
        }
        MetaErr::TooLarge(key) => add_key("too large ", key, output),
        MetaErr::BadSeed(place) => output.counted("bad seed ", place as u64),
        MetaErr::NoMemory => output.text("out of memory"),
    }
}

/// What a metainfo file says; nothing, where it has too many bytes.
pub fn read_meta(alloc: Global, bytes: &[u8]) -> Option<Result<Meta, MetaErr>> {
    if bytes.len() < MOST {
        Some(Meta::read(alloc, bytes))
    } else {
        None
    }
}

// Adds a file: the parts of its path, with `/` between them, and its length.
fn add_file(alloc: Global, file: &FileLen, output: &mut Output) {
    let mut gap = " ";
    for place in 0..file.path.len() {
        if let Some(part) = file.path.get(place) {
            output.text(gap);
            add_shown(alloc, part.bytes(), output);
        }
        gap = "/";
    }
    output.counted(":", file.len);
}

fn add_files(alloc: Global, meta: &Meta, output: &mut Output) {
    output.counted("; ", meta.layout.files().len() as u64);
    output.text(" files:");
    for file in meta.layout.files() {
        add_file(alloc, file, output);
    }
}

// Adds the digests of the pieces, as many as are told.
fn add_digests(alloc: Global, meta: &Meta, output: &mut Output) {
    output.counted("; ", meta.digests.len() as u64);
    output.text(" digests:");
    for place in 0..3 {
        if let Some(digest) = meta.digests.get(place) {
            output.text(" ");
            output.hex_bytes(alloc, digest.as_slice());
        }
    }
}

fn add_seeds(seeds: &Texts, output: &mut Output) {
    output.counted("; ", seeds.len() as u64);
    output.text(" seeds:");
    for place in 0..seeds.len() {
        if let Some(seed) = seeds.get(place) {
            output.text(" ");
            output.text(seed.as_str());
        }
    }
}

fn add_plan(meta: &Meta, output: &mut Output) {
    output.counted("; ", meta.plan.total);
    output.counted(" bytes in ", meta.plan.pieces as u64);
    output.counted(" pieces of ", meta.plan.piece_len as u64);
}

fn add_meta(alloc: Global, meta: &Meta, output: &mut Output) {
    add_shown(alloc, meta.name.bytes(), output);
    add_plan(meta, output);
    add_files(alloc, meta, output);
    add_digests(alloc, meta, output);
    add_seeds(&meta.seeds, output);
    output.text("; hash ");
    output.hex_bytes(alloc, meta.info_hash.as_slice());
}

/// Adds what a metainfo file says.
pub fn add_metainfo(alloc: Global, parts: &str, output: &mut Output) {
    match read_meta(alloc, &spelled(alloc, parts)) {
        Some(Ok(meta)) => add_meta(alloc, &meta, output),
        Some(Err(refused)) => add_refusal(refused, output),
        None => {}
    }
}

fn add_url_of(alloc: Global, meta: &Meta, file: u32, base: &str, output: &mut Output) {
    if file as usize >= meta.layout.files().len() {
        output.text("no such file");
    } else if let Ok(url) = meta.seed_url(alloc, base, file) {
        output.text(url.as_str());
    }
}

/// Adds the URL of a file at a web seed.
pub fn add_url(alloc: Global, rest: &str, output: &mut Output) {
    let bytes = spelled(alloc, after(after(rest, ' '), ' '));
    if let Some(Ok(meta)) = read_meta(alloc, &bytes) {
        add_url_of(alloc, &meta, u32_at(rest, 0), word(rest, 1), output);
    }
}
