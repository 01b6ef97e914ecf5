// Lines of cases.
use crate::places::add_place;
use crate::replies::{add_port, add_reply, add_size};
use crate::spelling::spelled;
use crate::steps::{add_command, add_turn};
use std::alloc::Global;
use test_lines::{Output, Trial, after, before, keyword};

/// Carries lines out, each on its own.
#[derive(Drop)]
pub struct Cases {
    alloc: Global,
}

// What a line's first word asks for.
#[derive(Clone, Copy)]
enum Line {
    Place,
    Reply,
    Port,
    Size,
    Command,
    Step,
    Ended,
    Other,
}

const LINES: [(&str, Line); 7] = [
    ("place", Line::Place),
    ("reply", Line::Reply),
    ("port", Line::Port),
    ("size", Line::Size),
    ("command", Line::Command),
    ("step", Line::Step),
    ("ended", Line::Ended),
];

impl Cases {
    pub fn new(alloc: Global) -> Cases {
        Cases { alloc }
    }

    fn ask(&self, line: Line, rest: &str, output: &mut Output) {
        let alloc = self.alloc;
        let step = before(rest, ' ');
        match line {
            Line::Place => add_place(alloc, rest, output),
            Line::Reply => add_reply(&spelled(alloc, rest), output),
            Line::Port => add_port(&spelled(alloc, rest), output),
            Line::Size => add_size(&spelled(alloc, rest), output),
            Line::Command => add_command(alloc, rest, output),
            Line::Step => add_turn(step, &spelled(alloc, after(rest, ' ')), false, output),
            Line::Ended => add_turn(step, &spelled(alloc, after(rest, ' ')), true, output),
            Line::Other => output.text("no line of a case"),
        }
    }
}

impl Trial for Cases {
    fn begin(&mut self) {}

    fn step(&mut self, line: &str, output: &mut Output) {
        output.text("  ");
        let kind = keyword(&LINES, before(line, ' '), Line::Other);
        self.ask(kind, after(line, ' '), output);
        output.text("\n");
    }
}
