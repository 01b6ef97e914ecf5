// What the code of a reply means.
ghost use Rattle.std.specs.Prelude.{◌≡◌};
ghost use Rattle.ftp_steps.specs.Meanings.{meaning_of, refusal};

use crate::FtpStep;
use dl_kinds::{Code, ExitStatus};
use reply_reader::Loss;

/// What a reply means, by its code.
#[derive(Clone, Copy, Debug, PartialEq, Eq)]
pub(crate) enum Meaning {
    /// It leads to this step.
    GoesTo(FtpStep),
    /// Its last line tells the size of the file.
    HasSize,
    /// Its last line tells the port of the data connection.
    HasPort,
    /// The data connection gives the file.
    GivesData,
    Loses(Loss),
}

fn refusal(code: u16, status: ExitStatus) -> Meaning
    ensures { result ≡ refusal code status }
{
    Meaning::Loses(Loss::Refused {
        status: code,
        code: Code::of(status),
    })
}

pub(crate) fn meaning_of(step: FtpStep, code: u16) -> Meaning
    ensures { result ≡ meaning_of step code }
{
    match (step, code) {
        (FtpStep::Greeting, 220) => Meaning::GoesTo(FtpStep::User),
        (FtpStep::Greeting, _) => refusal(code, ExitStatus::Unavailable),
        (FtpStep::User, 331) => Meaning::GoesTo(FtpStep::Password),
        (FtpStep::User | FtpStep::Password, 230) => Meaning::GoesTo(FtpStep::Binary),
        (FtpStep::Binary, 200) => Meaning::GoesTo(FtpStep::Size),
        (FtpStep::Size, 213) => Meaning::HasSize,
        (FtpStep::Passive, 227) => Meaning::HasPort,
        (FtpStep::Restart, 350) => Meaning::GoesTo(FtpStep::Retrieve),
        (FtpStep::Retrieve, 125 | 150) => Meaning::GivesData,
        (FtpStep::Size | FtpStep::Retrieve, 550) => Meaning::Loses(Loss::NotFound),
        _ => refusal(code, ExitStatus::FtpCommand),
    }
}
