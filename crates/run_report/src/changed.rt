// Which calls ask, and what the others are answered.
ghost use Rattle.std.specs.Prelude.{◌≡◌};
ghost use Rattle.run_report.specs.Replies.{applied_reply, is_asking};

use crate::Reply;
use machine_core::{Applied, Call};

/// Whether a call asks, and changes nothing but the history.
pub fn asks(call: &Call) -> bool
    ensures { result ≡ is_asking call.now }
{
    match call {
        Call::TellStatus { .. }
        | Call::TellActive
        | Call::TellWaiting { .. }
        | Call::TellStopped { .. }
        | Call::GetUris { .. }
        | Call::GetFiles { .. }
        | Call::GetOption { .. }
        | Call::GetGlobalOption
        | Call::GetGlobalStat
        | Call::GetVersion => true,
        _ => false,
    }
}

/// What a call that changes the run is answered, by what it was when it came. A call that asks has another reply, that of
/// `reply_to`.
pub fn changed_reply(applied: Applied) -> Reply
    ensures { result ≡ applied_reply applied }
{
    match applied {
        Applied::Added { gid } | Applied::Named { gid } => Reply::Gid(gid),
        Applied::Fine | Applied::Asked => Reply::Fine,
        Applied::Moved { position } => Reply::Position(position),
        Applied::Refused { refusal } => Reply::Refused(refusal),
    }
}
