// Files of cases, line by line.
use crate::output::Output;
use anyhow::{Context, Result};
use std::rt::{Env, Files};
use std::{env, fs};

/// What carries cases out.
pub trait Trial {
    /// Begins a file.
    fn begin(&mut self);

    /// Carries a line out that says something, and writes what comes of it.
    fn step(&mut self, line: &str, output: &mut Output);
}

/// Writes a line; true where it says something.
pub fn says(line: &str, output: &mut Output) -> bool {
    output.text(line);
    output.text("\n");
    !line.is_empty() && !line.starts_with('#')
}

fn try_text<T: Trial>(trial: &mut T, text: &str, output: &mut Output) {
    trial.begin();
    for line in text.lines() {
        if says(line, output) {
            trial.step(line, output);
        }
    }
}

/// The texts of all files that the words of the command line name.
pub fn texts<R: Env + Files + AllocGlobal>(rt: &R) -> Result<Vec<String>> {
    let mut texts = Vec::new(rt.alloc());
    for word in env::args(rt)?.skip(1) {
        texts.push(fs::read_to_string(rt, word.as_str())?)?;
    }
    Ok(texts)
}

/// Prints all that was written.
pub fn print_all<R: Print>(rt: &R, output: &Output) -> Result<()> {
    let written = output.written().context("out of memory")?;
    print!(rt; "{written}")?;
    Ok(())
}

/// Carries the cases of all files out that the words of the command line name, and prints what comes of them.
pub fn try_files<R: Env + Files + Print + AllocGlobal, T: Trial + Drop>(
    rt: &R,
    trial: T,
) -> Result<()> {
    let mut trial = trial;
    let mut output = Output::new(rt.alloc());
    for text in texts(rt)?.iter() {
        try_text(&mut trial, text.as_str(), &mut output);
    }
    print_all(rt, &output)
}
