// Layouts of files (BEP 3).
use crate::spelling::spelled;
use dl_kinds::{Text, Texts};
use span_map::{FileLen, Layout, LayoutErr, Part};
use std::alloc::{AllocError, Global};
use test_lines::{Output, after, before, number, u64_at};

fn push_text(alloc: Global, path: &mut Texts, parts: &str) -> Result<(), AllocError> {
    let bytes = spelled(alloc, parts);
    path.push(Text::of(alloc, str::from_utf8(&bytes).unwrap_or(""))?)
}

fn push_names(alloc: Global, path: &mut Texts, names: &str) -> Result<(), AllocError> {
    for name in names.split('/') {
        push_text(alloc, path, name)?;
    }
    Ok(())
}

// A file: the parts of its path, with `/` between them, and behind `:` its length.
fn file_of(alloc: Global, word: &str) -> Result<FileLen, AllocError> {
    let names = before(word, ':');
    let mut path = Texts::new(alloc);
    if !names.is_empty() {
        push_names(alloc, &mut path, names)?;
    }
    Ok(FileLen {
        path,
        len: number(after(word, ':')),
    })
}

fn push_files(alloc: Global, files: &mut Vec<FileLen>, words: &str) -> Result<(), AllocError> {
    for word in words.split(' ') {
        files.push(file_of(alloc, word)?)?;
    }
    Ok(())
}

fn layout_of(alloc: Global, words: &str) -> Result<Layout, LayoutErr> {
    let mut files = Vec::new(alloc);
    if !words.is_empty() {
        push_files(alloc, &mut files, words)?;
    }
    Layout::new(alloc, files)
}

fn add_refusal(refused: LayoutErr, output: &mut Output) {
    match refused {
        LayoutErr::Empty => output.text("no file"),
        LayoutErr::TooLong => output.text("too long"),
        LayoutErr::BadPath(file) => output.counted("bad path ", file as u64),
        LayoutErr::Repeated(file) => output.counted("repeated ", file as u64),
        LayoutErr::NoMemory => output.text("out of memory"),
    }
}

/// Adds whether files are a layout, and how long it is.
pub fn add_layout(alloc: Global, words: &str, output: &mut Output) {
    match layout_of(alloc, words) {
        Ok(layout) => {
            output.number(layout.files().len() as u64);
            output.counted(" files of ", layout.total());
        }
        Err(refused) => add_refusal(refused, output),
    }
}

fn add_part(part: &Part, gap: &str, output: &mut Output) {
    output.counted(gap, part.at);
    output.counted("+", part.len);
    output.counted(" of file ", part.file as u64);
}

fn add_all(parts: &[Part], output: &mut Output) {
    let mut gap = "";
    for part in parts {
        add_part(part, gap, output);
        gap = ", ";
    }
}

fn add_span(alloc: Global, layout: &Layout, at: u64, len: u64, output: &mut Output) {
    let total = layout.total();
    if len > total || at > total - len {
        output.text("beyond the end");
    } else if let Ok(parts) = layout.parts(alloc, at, len) {
        add_all(&parts, output);
    }
}

// A copy of a layout, if it is one.
fn copy_of(alloc: Global, words: &str) -> Option<Layout> {
    layout_of(alloc, words).ok()?.copy(alloc).ok()
}

/// Adds the parts of files that some bytes of a payload are.
pub fn add_parts(alloc: Global, rest: &str, output: &mut Output) {
    if let Some(layout) = copy_of(alloc, after(after(rest, ' '), ' ')) {
        add_span(alloc, &layout, u64_at(rest, 0), u64_at(rest, 1), output);
    }
}
