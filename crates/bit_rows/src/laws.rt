// The laws of rows and their bytes.
ghost use Rattle.bit_rows.specs.RowLaws.{RowsAreReadBack, BytesHoldRows};

/// A row and its bytes determine each other. It does nothing when it runs.
pub fn rows_are_their_bytes()
    ensures rows { RowsAreReadBack }
    ensures bytes { BytesHoldRows }
{}
