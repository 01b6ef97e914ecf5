// Laws of the steps.
ghost use Rattle.ftp_steps.specs.AnswerLaws.{HasOneAnswer, AnswerStays, DueBefore};
ghost use Rattle.ftp_steps.specs.StepFacts.{AnswerFollows, DueEnds, DueIsShort};
ghost use Rattle.ftp_steps.specs.Commands.{CommandIsLine};

use ftp_replies::{lines_tell_one_thing, replies_are_one_and_stay};

/// Laws of what a step leads to: it is one thing, it stays whatever else is said, and more is due as long as the reply
/// isn't whole.
pub fn answers_are_one_and_stay()
    ensures one { HasOneAnswer }
    ensures stays { AnswerStays }
    ensures due { DueBefore }
{
    lines_tell_one_thing();
    replies_are_one_and_stay();
}

/// A command is one line, whatever the path is. It does nothing when it runs.
pub fn commands_are_lines()
    ensures { CommandIsLine }
{}

/// Laws of what a step may lead to: a later step, data where a connection for it is open, or a loss; and of a reply that
/// is due: it may end there, and it is short.
pub fn answers_follow_their_step()
    ensures follows { AnswerFollows }
    ensures ends { DueEnds }
    ensures short { DueIsShort }
{
    replies_are_one_and_stay();
}
