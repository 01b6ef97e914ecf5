// What the reply at a step leads to.
ghost use Rattle.std.specs.Prelude.{◌≡◌};
ghost use Rattle.ftp_steps.specs.Answers.{StepAnswers};
ghost use Rattle.ftp_steps.specs.Turns.{TurnsBySize, TurnsByPort, TurnsBy};

use crate::meaning::{Meaning, meaning_of};
use crate::{FtpStep, FtpTurn};
use ftp_replies::{ReplyRead, last_line, passive_port, read_reply, told_size};
use reply_reader::Loss;

fn turn_by_size(line: &[u8]) -> FtpTurn
    ensures { TurnsBySize line.now result }
{
    match told_size(line) {
        Some(size) => FtpTurn::Sized(size),
        None => FtpTurn::Lost(Loss::BadReply),
    }
}

fn turn_by_port(line: &[u8]) -> FtpTurn
    ensures { TurnsByPort line.now result }
{
    match passive_port(line) {
        Some(port) => FtpTurn::Dials(port),
        None => FtpTurn::Lost(Loss::BadReply),
    }
}

// What a reply leads to, by its last line.
fn turn_by(meaning: Meaning, line: &[u8]) -> FtpTurn
    ensures { TurnsBy meaning line.now result }
{
    match meaning {
        Meaning::GoesTo(step) => FtpTurn::Next(step),
        Meaning::HasSize => turn_by_size(line),
        Meaning::HasPort => turn_by_port(line),
        Meaning::GivesData => FtpTurn::Opens,
        Meaning::Loses(loss) => FtpTurn::Lost(loss),
    }
}

/// What a step leads to, by what the server has said from its command on, and whether the stream ended there. What stands
/// behind the first reply is passed over.
pub fn answer(step: FtpStep, received: &[u8], ended: bool) -> FtpTurn
    ensures { StepAnswers step received.now ended result }
{
    match read_reply(received) {
        ReplyRead::Whole { code, used } => {
            let reply = &received[..used as usize];
            turn_by(meaning_of(step, code), last_line(reply))
        }
        ReplyRead::More => {
            if ended {
                FtpTurn::Lost(Loss::Short { got: 0 })
            } else {
                FtpTurn::Due
            }
        }
        ReplyRead::Bad => FtpTurn::Lost(Loss::BadReply),
    }
}
