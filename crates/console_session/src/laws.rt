// What follows of the turns of a session. Laws do nothing when they run.
ghost use Rattle.std.specs.Prelude.{◌≡◌};
ghost use Rattle.console_session.specs.DoorLaws.{DoorsTellNotices};
ghost use Rattle.console_session.specs.SessionLaws.{CallsStandWhereReplied, RepliesAreOfTheHistory};
ghost use Rattle.console_session.specs.SocketLaws.{SocketStepsTellAll};
ghost use Rattle.machine_core.specs.declared.notices.TheConstants.{MOST_NOTICES};

use machine_core::notices_go_on;

/// What a session tells of a call is the reply of the history before the call's event, which stands at the place that
/// the reply names.
pub fn replies_are_of_the_history()
    ensures { RepliesAreOfTheHistory }
{}

/// The events of a session's calls stand in a history just at the places that the replies to it name, in order, each once.
pub fn calls_stand_where_replied()
    ensures { CallsStandWhereReplied }
{}

/// Of a session over a WebSocket, whatever turns of others come between: its calls are those of the texts that came, in
/// order, each once; and its texts are the answers, and just the notices of the history since it joined, in order, each
/// once, but for those that are due still.
pub fn socket_steps_tell_all()
    ensures { SocketStepsTellAll }
{
    notices_go_on();
}

/// Each WebSocket at a door carried out the calls of its texts, and told just the notices of the history since it joined, in
/// order, each once, whatever others did meanwhile.
pub fn doors_tell_notices()
    ensures { DoorsTellNotices }
{
    socket_steps_tell_all();
}

/// How many notices a turn tells. It does nothing when it runs.
pub fn limits_are_told()
    ensures { MOST_NOTICES ≡ 64 }
{}
