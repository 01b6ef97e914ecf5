// What is said at a step.
ghost use Rattle.std.specs.Prelude.{◌≡◌, IfOk, string_bytes};
ghost use Rattle.ftp_steps.specs.Commands.{command_of};

use crate::FtpStep;
use dl_kinds::NoMemory;
use ftp_places::FtpPlace;
use std::alloc::Global;

/// The command of a step, where the file is to come from this place on. It is empty at the greeting.
pub fn command(alloc: Global, step: FtpStep, place: &FtpPlace, at: u64) -> Result<String, NoMemory>
    ensures { IfOk result (λ text. string_bytes text ≡ command_of place.now at step) }
{
    let path = place.path.as_str();
    match step {
        FtpStep::Greeting => Ok(String::new(alloc)),
        FtpStep::User => String::from_str(alloc, "USER anonymous\r\n"),
        FtpStep::Password => String::from_str(alloc, "PASS anonymous@\r\n"),
        FtpStep::Binary => String::from_str(alloc, "TYPE I\r\n"),
        FtpStep::Size => format!(in alloc; "SIZE {path}\r\n"),
        FtpStep::Passive => String::from_str(alloc, "PASV\r\n"),
        FtpStep::Restart => format!(in alloc; "REST {at}\r\n"),
        FtpStep::Retrieve => format!(in alloc; "RETR {path}\r\n"),
    }
}
