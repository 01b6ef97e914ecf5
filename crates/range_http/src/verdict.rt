// What the head of a reply means.
ghost use Rattle.std.specs.Prelude.{◌≡◌, ◌+◌, ◌-◌};
ghost use Rattle.dl_kinds.specs.ExitStatuses.{exit_code};
ghost use Rattle.range_http.specs.Table.{HasOneVerdict};
ghost use Rattle.range_http.specs.Verdict.{told_range, is_empty_range, is_empty, is_encoded, told_length, is_told, unexpected, sized, ranged_verdict, whole_verdict, content_verdict, verdict_of};
ghost use Rattle.range_http.specs.declared.verdict.Verdict.TheVariants.{Refused};

use crate::framing::{all_words, framing_of};
use crate::{Asked, ContentRange, Framing, read_range};
use dl_kinds::{Code, ExitStatus};
use http_heads::{Head, sole_field};

/// What a reply is for what was asked.
#[derive(Clone, Copy, Debug, PartialEq, Eq)]
pub enum Verdict {
    /// The asked bytes up to `last`, which may be before the last asked one, and the length of the whole resource where
    /// it is told.
    Part {
        last: u64,
        total: Option<u64>,
        framing: Framing,
    },
    /// The whole resource, and its length where it is told.
    Whole {
        total: Option<u64>,
        framing: Framing,
    },
    /// The probed resource has no byte.
    Empty,
    /// The whole resource has another length than is known.
    WrongLength {
        told: u64,
    },
    /// The resource is where [`location`](crate::location) says.
    Moved,
    NotFound,
    /// Any other reply, with the exit status that the program has for it.
    Refused {
        code: Code,
    },
}

/// Refused, with this exit status.
const fn refused(status: ExitStatus) -> Verdict
    ensures { result ≡ Refused (exit_code status) }
{
    Verdict::Refused {
        code: Code::of(status),
    }
}

/// A reply that is bad or wasn't expected.
const fn unexpected() -> Verdict
    ensures { result ≡ unexpected }
{
    refused(ExitStatus::HttpReply)
}

fn told_range(head: &Head) -> Option<ContentRange>
    ensures { result ≡ told_range head.now }
{
    read_range(sole_field(&head.fields, "content-range")?)
}

fn is_empty_range(range: Option<ContentRange>) -> bool
    ensures { result ≡ is_empty_range range }
{
    matches!(
        range,
        Some(ContentRange {
            span: None,
            total: Some(0)
        })
    )
}

fn is_encoded(head: &Head) -> bool
    ensures { result ≡ is_encoded head.now }
{
    !all_words(head.fields.get_all("content-encoding").iter(), b"identity")
}

fn told_length(framing: Framing) -> Option<u64>
    ensures { result ≡ told_length framing }
{
    match framing {
        Framing::Length(told) => Some(told),
        Framing::Chunked | Framing::ToEnd => None,
    }
}

// Whether nothing else is told than a length that reaches from the first byte to the last.
fn is_told(told: Option<u64>, first: u64, last: u64) -> bool
    ensures { result ≡ is_told told (last - first + 1) }
{
    match told {
        Some(told) => told.checked_sub(1) == Some(last.saturating_sub(first)),
        None => true,
    }
}

fn sized(known: Option<u64>, told: Option<u64>, verdict: Verdict) -> Verdict
    ensures { result ≡ sized known told verdict }
{
    match (known, told) {
        (None, None) => unexpected(),
        (Some(known), Some(told)) if told != known => Verdict::WrongLength { told },
        _ => verdict,
    }
}

fn ranged_verdict(asked: &Asked, framing: Framing, range: Option<ContentRange>) -> Verdict
    ensures { result ≡ ranged_verdict asked.now framing range }
{
    let Some(
        ContentRange {
            span: Some((first, last)),
            total,
        },
    ) = range
    else {
        return unexpected();
    };
    if first == asked.first && last <= asked.last && is_told(told_length(framing), first, last) {
        let part = Verdict::Part {
            last,
            total,
            framing,
        };
        sized(asked.total, total, part)
    } else {
        unexpected()
    }
}

fn whole_verdict(asked: &Asked, framing: Framing) -> Verdict
    ensures { result ≡ whole_verdict asked.now framing }
{
    let total = told_length(framing);
    sized(asked.total, total, Verdict::Whole { total, framing })
}

fn content_verdict(head: &Head, asked: &Asked) -> Verdict
    ensures { result ≡ content_verdict head.now asked.now }
{
    if is_encoded(head) {
        return unexpected();
    }
    let Some(framing) = framing_of(head) else {
        return unexpected();
    };
    if head.status == 206 {
        ranged_verdict(asked, framing, told_range(head))
    } else {
        whole_verdict(asked, framing)
    }
}

fn first_line(head: &Head, asked: &Asked) -> Verdict
    ensures { result ≡ verdict_of head.now asked.now }
{
    match head.status {
        404 => Verdict::NotFound,
        401 => refused(ExitStatus::Authorization),
        503 => refused(ExitStatus::Unavailable),
        301 | 302 | 303 | 307 | 308 if sole_field(&head.fields, "location").is_some() =>
            Verdict::Moved,
        416 if asked.total.is_none() && is_empty_range(told_range(head)) => Verdict::Empty,
        200 | 206 => content_verdict(head, asked),
        _ => unexpected(),
    }
}

/// What the reply is for what was asked. It asks for nothing of the allocator.
pub fn classify(head: &Head, asked: &Asked) -> Verdict
    ensures table { HasOneVerdict head.now asked.now result }
    ensures value { result ≡ verdict_of head.now asked.now }
{
    first_line(head, asked)
}
