// The steps of a dialogue (RFC 959 section 5.4).
use crate::spelling::add_shown;
use ftp_places::FtpPlace;
use ftp_steps::{FtpStep, FtpTurn, answer, command};
use reply_reader::Loss;
use std::alloc::Global;
use test_lines::{Output, keyword, name_of, u64_at, word};

const STEPS: [(&str, FtpStep); 8] = [
    ("greeting", FtpStep::Greeting),
    ("user", FtpStep::User),
    ("password", FtpStep::Password),
    ("binary", FtpStep::Binary),
    ("size", FtpStep::Size),
    ("passive", FtpStep::Passive),
    ("restart", FtpStep::Restart),
    ("retrieve", FtpStep::Retrieve),
];

fn step_of(name: &str) -> FtpStep {
    keyword(&STEPS, name, FtpStep::Greeting)
}

/// Adds the command of a step, by the place from which the file is to come, and the URL of the file.
pub fn add_command(alloc: Global, rest: &str, output: &mut Output) {
    let Ok(place) = FtpPlace::of(alloc, word(rest, 2)) else {
        return output.text("no place");
    };
    match command(alloc, step_of(word(rest, 0)), &place, u64_at(rest, 1)) {
        Ok(text) => add_shown(alloc, text.as_bytes(), output),
        Err(_) => output.text("out of memory"),
    }
}

fn add_loss(loss: Loss, output: &mut Output) {
    match loss {
        Loss::NotFound => output.text("not found"),
        Loss::Refused { status, code } => {
            output.counted("refused ", status as u64);
            output.counted(" ", code.0 as u64);
        }
        Loss::BadReply => output.text("bad reply"),
        Loss::Short { got } => output.counted("short ", got),
        _ => output.text("another loss"),
    }
}

/// Adds what a step leads to, by what the server said from its command on.
pub fn add_turn(name: &str, received: &[u8], ended: bool, output: &mut Output) {
    match answer(step_of(name), received, ended) {
        FtpTurn::Due => output.text("due"),
        FtpTurn::Next(step) => output.text(name_of(&STEPS, &step)),
        FtpTurn::Sized(size) => output.counted("size ", size),
        FtpTurn::Dials(port) => output.counted("port ", port as u64),
        FtpTurn::Opens => output.text("data"),
        FtpTurn::Lost(loss) => add_loss(loss, output),
    }
}
