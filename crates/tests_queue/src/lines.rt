// Words of a command line, and what they mean.
use crate::options::{add_other_values, add_set_values};
use command_line::{CommandLine, Source, read};
use dl_kinds::Texts;
use std::alloc::{AllocError, Global};
use test_lines::{Output, number, spelled_text};

// The words that a word of a line stands for: a word behind `#3` comes three times. Told is how often the next one comes.
fn push_words(
    alloc: Global,
    words: &mut Vec<String>,
    count: u64,
    parts: &str,
) -> Result<u64, AllocError> {
    if let Some(digits) = parts.strip_prefix('#') {
        return Ok(number(digits));
    }
    for _ in 0..count {
        words.push(spelled_text(alloc, parts))?;
    }
    Ok(1)
}

fn push_line(alloc: Global, words: &mut Vec<String>, line: &str) -> Result<(), AllocError> {
    let mut count = 1;
    for parts in line.split(' ') {
        count = push_words(alloc, words, count, parts)?;
    }
    Ok(())
}

// Adds these texts, with a space in front of each.
fn add_texts(texts: &Texts, output: &mut Output) {
    for place in 0..texts.len() {
        if let Some(text) = texts.get(place) {
            output.letter(' ');
            output.text(text.as_str());
        }
    }
}

fn add_uris(uris: &Texts, output: &mut Output) {
    output.number(uris.len() as u64);
    output.text(" URIs");
    add_texts(uris, output);
}

fn add_source(source: &Source, output: &mut Output) {
    match source {
        Source::Metainfo { file, uris } => {
            output.text("metainfo file ");
            output.text(file.as_str());
            output.text(", ");
            add_uris(uris, output);
        }
        Source::Mirrors { uris } => add_uris(uris, output),
        Source::Console => output.text("console"),
    }
}

fn add_line(alloc: Global, line: &CommandLine, output: &mut Output) {
    add_source(&line.source, output);
    output.text("; for all:");
    add_other_values(alloc, &line.globals, output);
    output.counted("; ", line.settings.len() as u64);
    output.text(" own:");
    add_set_values(alloc, &line.settings, output);
}

fn add_read(alloc: Global, words: &[String], output: &mut Output) {
    match read(alloc, words) {
        Ok(Some(line)) => add_line(alloc, &line, output),
        Ok(None) => output.text("none"),
        Err(_) => output.text("out of memory"),
    }
}

/// Adds what the words of a command line mean.
pub fn add_meaning(alloc: Global, line: &str, output: &mut Output) {
    let mut words = Vec::new(alloc);
    if line.is_empty() || push_line(alloc, &mut words, line).is_ok() {
        add_read(alloc, &words, output);
    }
}
