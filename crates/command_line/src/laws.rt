// What holds of the meaning of words.
ghost use Rattle.command_line.specs.LineLaws.{LinesAreOne};

use option_set::names_are_apart;

/// Words mean one line at most. It does nothing when it runs.
pub fn lines_are_one()
    ensures { LinesAreOne }
{
    names_are_apart();
}
