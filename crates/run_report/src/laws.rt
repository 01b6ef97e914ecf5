// What holds of every summary, and of replies.
ghost use Rattle.run_report.specs.Replies.{ChangesAreApplied};
ghost use Rattle.run_report.specs.Subjects.{PayloadsAreNamed};
ghost use Rattle.run_report.specs.SummaryLaws.{SummariesAreOne};
ghost use Rattle.run_report.specs.WorkedReplies.{WorkedReplies};
ghost use Rattle.std.specs.Prelude.{◌≡◌};
ghost use Rattle.run_report.specs.declared.speeds.TheConstants.{SPEED_MS, SPEED_SECONDS};

use metainfo::tests_say_what_holds;

/// A history has one summary. It does nothing when it runs.
pub fn summaries_are_one()
    ensures { SummariesAreOne }
{}

/// What the definitions say of the worked runs.
pub fn worked_replies_are_told()
    ensures { WorkedReplies }
{}

/// A call that doesn't ask is answered what it was when it came. It does nothing when it runs.
pub fn changes_are_applied()
    ensures { ChangesAreApplied }
{}

/// Each download of a legal history has a name, so a call has a reply. It does nothing when it runs.
pub fn payloads_are_named()
    ensures { PayloadsAreNamed }
{
    tests_say_what_holds();
}

/// The milliseconds and seconds that a speed is told of. It does nothing when it runs.
pub fn limits_are_told()
    ensures milliseconds { SPEED_MS ≡ 10000 }
    ensures seconds { SPEED_SECONDS ≡ 10 }
{}
