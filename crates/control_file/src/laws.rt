// The laws of the format.
ghost use Rattle.control_file.specs.Laws.{ControlFilesAreRead, WrittenIsReadBack};

use bit_rows::rows_are_their_bytes;

/// Reading gives a value exactly where the bytes are a control file that says it, and gives back what was written. It
/// does nothing when it runs.
pub fn control_files_are_read()
    ensures exactly { ControlFilesAreRead }
    ensures back { WrittenIsReadBack }
{
    rows_are_their_bytes();
}
