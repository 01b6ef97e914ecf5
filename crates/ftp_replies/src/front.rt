// What bytes begin with, and whether they begin with a text.
ghost use Rattle.std.specs.Prelude.{◌↔◌, IsTrue};
ghost use Rattle.ftp_replies.specs.Fronts.{BeginsWithText};

/// What bytes begin with, as far as they have come.
#[derive(Clone, Copy, Debug, PartialEq, Eq)]
pub(crate) enum Front {
    /// A whole one, and how many bytes it takes.
    Whole(usize),
    /// The front of one.
    More,
    /// Neither.
    Bad,
}

/// Whether the bytes begin with the text.
pub(crate) fn begins(bytes: &[u8], text: &[u8]) -> bool
    ensures { IsTrue result ↔ BeginsWithText text.now bytes.now }
{
    bytes.starts_with(text)
}
