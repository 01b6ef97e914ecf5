// Why what was asked for didn't come.
ghost use Rattle.std.specs.Prelude.{◌≡◌};
ghost use Rattle.reply_reader.specs.Losses.{mark_of, marked};

use dl_kinds::{Code, ExitStatus, Mark};

/// Why what was asked for didn't come.
#[derive(Clone, Copy, Debug, PartialEq, Eq)]
pub enum Loss {
    /// The link failed. The count is that of its faults then.
    Link { count: u64 },
    /// The mirror doesn't have the resource.
    NotFound,
    /// The mirror refuses, or what it says was not expected. The status is that of its reply, and 0 where it wasn't
    /// asked, since the URL is no `http` URL.
    Refused { status: u16, code: Code },
    /// The bytes that came are no head, or no body, of HTTP.
    BadReply,
    /// The resource has another length than is wanted.
    Length { told: u64, want: u64 },
    /// The stream or the body ended before a head, or before the asked bytes, of which so many came by this request.
    Short { got: u64 },
    /// The resource was moved too often.
    Redirects,
    NoMemory,
}

/// The mark of a status, without a count of faults.
fn marked(status: ExitStatus) -> Option<Mark>
    ensures { result ≡ marked status }
{
    Some(Mark {
        code: Code::of(status),
        count: 0,
    })
}

impl Loss {
    /// What is held against the mirror, which is nothing for want of memory.
    pub fn mark(&self) -> Option<Mark>
        ensures { result ≡ mark_of self.now }
    {
        match *self {
            Loss::Link { count } => Some(Mark {
                code: Code::of(ExitStatus::Network),
                count,
            }),
            Loss::NotFound => marked(ExitStatus::NotFound),
            Loss::Refused { code, .. } => Some(Mark { code, count: 0 }),
            Loss::BadReply | Loss::Length { .. } => marked(ExitStatus::HttpReply),
            Loss::Short { .. } => marked(ExitStatus::Network),
            Loss::Redirects => marked(ExitStatus::Redirects),
            Loss::NoMemory => None,
        }
    }
}
