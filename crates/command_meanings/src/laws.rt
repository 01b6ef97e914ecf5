// What holds of meanings.
ghost use Rattle.command_meanings.specs.Meanings.{LoadWordsAreNoLine};

/// The word that asks for a load is no command line of downloads, so words have one meaning at most. It does nothing when it
/// runs.
pub fn load_words_are_no_line()
    ensures { LoadWordsAreNoLine }
{}
