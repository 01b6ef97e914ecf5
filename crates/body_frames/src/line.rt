// The lines of a chunked body, byte by byte.
ghost use Rattle.std.specs.Prelude.{◌≡◌, ◌≤◌, ℕ, false, List, [], ◌∷◌, ◌++◌, IsTrue, ◌↔◌, IfErr};

use crate::BodyErr;

/// The most bytes that a size line or a trailer line has before its CR LF.
pub const LINE_LIMIT: u32 = 256;

/// A line whose CR LF hasn't come.
#[derive(Clone, Copy, Debug, PartialEq, Eq)]
pub(crate) struct OpenLine {
    // How many bytes it has, but for a CR that came last.
    len: u32,
    // Whether a CR came last: an LF behind it ends the line, and otherwise it is a byte of the line.
    cr: bool,
    ghost in_limit: { len ≤ 256 },
}

pub(crate) enum LineStep {
    Open(OpenLine),
    Ended,
    TooLong,
}

impl OpenLine {
    ghost use Rattle.body_frames.specs.Open.{IsOpenLine, LineGoesOn};

    pub(crate) fn new() -> Self
        ensures { IsOpenLine [] result }
    {
        OpenLine { len: 0, cr: false }
    }

    pub(crate) fn is_empty(self) -> bool
        ensures { IsTrue result ↔ (self.len ≡ 0) }
    {
        self.len == 0
    }

    /// Takes the next byte of a line that has at most `limit` bytes.
    pub(crate) fn next(self, byte: u8, limit: u32) -> LineStep
        requires { limit ≤ 256 }
        ensures { (came : List ℕ) → IsOpenLine came self → LineGoesOn limit came byte result }
    {
        if self.cr && byte == b'\n' {
            return LineStep::Ended;
        }
        let cr = byte == b'\r';
        let len = self.len + u32::from(self.cr) + u32::from(!cr);
        if len > limit {
            LineStep::TooLong
        } else {
            LineStep::Open(OpenLine { len, cr })
        }
    }
}

/// A size line whose CR LF hasn't come.
#[derive(Clone, Copy, Debug, PartialEq, Eq)]
pub(crate) struct SizeLine {
    line: OpenLine,
    // What its digits write so far.
    size: u32,
    in_extension: bool,
}

pub(crate) enum SizeStep {
    Open(SizeLine),
    Ended(u32),
}

impl SizeLine {
    ghost use Rattle.body_frames.specs.Lines.{IsFault};
    ghost use Rattle.body_frames.specs.Open.{IsOpenSize, SizeGoesOn, SizeLineGoesOn};

    pub(crate) fn new() -> Self
        ensures { IsOpenSize [] result }
    {
        SizeLine {
            line: OpenLine::new(),
            size: 0,
            in_extension: false,
        }
    }

    pub(crate) fn next(self, byte: u8) -> Result<SizeStep, BodyErr>
        ensures goes_on { (came : List ℕ) →
            IsOpenSize came self → SizeLineGoesOn (came ++ byte ∷ []) result }
        ensures fault { IfErr result IsFault }
    {
        let size = self.size_with(byte)?;
        match self.line.next(byte, LINE_LIMIT) {
            LineStep::Open(line) => Ok(SizeStep::Open(SizeLine {
                line,
                size,
                in_extension: self.in_extension || byte == b';',
            })),
            LineStep::Ended => Ok(SizeStep::Ended(size)),
            LineStep::TooLong => Err(BodyErr::LineTooLong),
        }
    }

    // The size with this byte, if it may stand there: any byte in an extension, and behind the digits a digit, `;` or
    // CR LF.
    fn size_with(self, byte: u8) -> Result<u32, BodyErr>
        ensures goes_on { (came : List ℕ) →
            IsOpenSize came self → SizeGoesOn (came ++ byte ∷ []) result }
        ensures fault { IfErr result (λ error. error ≡ BodyErr.BadChunk) }
    {
        if self.in_extension {
            return Ok(self.size);
        }
        if self.line.cr {
            return if byte == b'\n' {
                Ok(self.size)
            } else {
                Err(BodyErr::BadChunk)
            };
        }
        if let Some(digit) = char::from(byte).to_digit(16) {
            let Some(high) = self.size.checked_mul(16) else {
                return Err(BodyErr::BadChunk);
            };
            return Ok(high + digit);
        }
        if self.line.is_empty() {
            return Err(BodyErr::BadChunk);
        }
        if byte == b';' || byte == b'\r' {
            Ok(self.size)
        } else {
            Err(BodyErr::BadChunk)
        }
    }
}
