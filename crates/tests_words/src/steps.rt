// Lines of cases.
use crate::endings::{end_of, ending_by, fault_by};
use crate::rig::{CAUSES, Rig};
use dl_kinds::{Gid, NoMemory};
use machine_core::{Call, Journal};
use option_set::Settings;
use run_report::RunEnding;
use run_words::{Edges, Failure, add_failure, reasons};
use std::alloc::Global;
use test_lines::{Output, Trial, after, number, spelled_text, word};

// The words of a line: one behind `#3` stands three times.
fn words_of(alloc: Global, line: &str) -> Result<Vec<String>, NoMemory> {
    let mut words = Vec::new(alloc);
    if line.is_empty() {
        return Ok(words);
    }
    let mut count = 1;
    for parts in line.split(' ') {
        match parts.strip_prefix('#') {
            Some(digits) => count = number(digits),
            None => {
                for _ in 0..count {
                    words.push(spelled_text(alloc, parts))?;
                }
                count = 1;
            }
        }
    }
    Ok(words)
}

fn add_said(said: Result<String, NoMemory>, output: &mut Output) {
    match said {
        Ok(text) => output.text(text.as_str()),
        Err(_) => output.text("out of memory\n"),
    }
}

impl Rig {
    fn run_said(&self, rest: &str, ending: RunEnding) -> Result<String, NoMemory> {
        let links = [&self.link];
        let edges = Edges {
            disk: &self.disk,
            links: &links,
        };
        let words = words_of(self.alloc, rest)?;
        reasons(
            self.alloc,
            &words,
            ending,
            &Journal::new(self.alloc),
            &edges,
        )
    }

    // The call that names the URIs.
    fn call(&self) -> Result<Call, NoMemory> {
        Ok(Call::AddUri {
            uris: self.uris.copy(self.alloc)?,
            options: Settings::new(self.alloc),
            position: None,
        })
    }

    fn failure_said(&self, line: &str) -> Result<String, NoMemory> {
        let links = [&self.link];
        let edges = Edges {
            disk: &self.disk,
            links: &links,
        };
        let failure = Failure {
            gid: Gid(10),
            end: end_of(line),
        };
        let call = self.call()?;
        let mut text = String::new(self.alloc);
        add_failure(
            &mut text,
            self.alloc,
            &failure,
            &self.losses,
            Some(&call),
            &edges,
        )?;
        Ok(text)
    }
}

fn add_causes(output: &mut Output) {
    for (name, why) in CAUSES {
        output.text(name);
        output.text(": ");
        output.text(why.words());
        output.text("\n");
    }
}

impl Trial for Rig {
    fn begin(&mut self) {
        self.forget();
    }

    fn step(&mut self, line: &str, output: &mut Output) {
        let rest = after(line, ' ');
        match word(line, 0) {
            "line" => add_said(self.run_said(rest, RunEnding::NoMeaning), output),
            "metainfo" => add_said(
                self.run_said(
                    after(rest, ' '),
                    RunEnding::NoMetainfo(fault_by(word(line, 1))),
                ),
                output,
            ),
            "run" => add_said(
                self.run_said(after(rest, ' '), ending_by(word(line, 1))),
                output,
            ),
            "end" => add_said(self.failure_said(line), output),
            "causes" => add_causes(output),
            "disk" | "link" => self.note(line),
            "lost" => self.lose(line),
            "uri" => self.name(line),
            _ => self.forget(),
        }
    }
}
