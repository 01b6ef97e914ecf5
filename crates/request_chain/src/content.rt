// The bytes of a reply's content.
ghost use Rattle.std.specs.Prelude.{◌≡◌, ◌<◌, ◌≤◌, ◌+◌, ◌++◌, ◌-◌, ◌^◌, min, Bool, List, ℕ, Ok, Some, None, length, IfOk, IfErr, IfSome, IsTrue, vec_len, vec_capacity};
ghost use Rattle.range_http.specs.declared.asked.Asked.{Asked};
ghost use Rattle.range_http.specs.declared.verdict.Verdict.TheVariants.{Moved};
ghost use Rattle.range_http.specs.Verdict.{verdict_of};
ghost use Rattle.reply_reader.specs.Answers.{Due, Lost, without_bytes, answer_by};
ghost use Rattle.reply_reader.specs.Losses.{IsKnown};
ghost use Rattle.reply_reader.specs.Slices.{framing_told};
ghost use Rattle.reply_reader.specs.declared.slices.SliceState.TheVariants.{More};
ghost use Rattle.reply_reader.specs.declared.slices.TheConstants.{MAX_PIECE_BYTES};
ghost use Rattle.request_chain.specs.Contents.{IsAtStart, IsBegun, IsReadTo, ends_behind, turn_by, IsOwn};

use crate::inbox::Inbox;
use dl_kinds::{Code, ExitStatus};
use http_heads::Head;
use range_http::{Asked, Framing, Verdict, classify, numbers_and_ranges_are_read, persists};
use reply_reader::{Loss, SliceReader, SliceState, final_heads_are_one_and_stay};

/// The content of a reply, whose bytes up to a place are wanted.
#[derive(Debug, Drop)]
pub(crate) struct Content {
    reader: SliceReader,
    /// The place of the last byte that it gives.
    pub last: u64,
    /// How many bytes came.
    pub got: u64,
    /// How long the body is, where the connection persists behind it.
    ends: Option<u64>,
    /// How many bytes were read behind the head.
    behind: u64,
}

// So many bytes more, up to 2^64 - 1.
fn count_on(behind: u64, used: u32) -> u64
    ensures { result ≡ min (behind + used) (2 ^ 64 - 1) }
{
    behind.saturating_add(used as u64)
}

impl Content {
    // The content that gives what was asked from the first byte on, behind so many of its bytes.
    fn new(framing: Framing, skip: u64, first: u64, last: u64) -> Self
        requires ordered { first ≤ last }
        requires bounded { last + 1 < 2 ^ 64 }
        ensures { IsAtStart (framing_told framing) skip (last + 1 - first) last result }
    {
        Content {
            reader: SliceReader::new(framing, skip, last + 1 - first),
            last,
            got: 0,
            ends: None,
            behind: 0,
        }
    }

    // The same of a reply with this head and framing.
    fn under(self, head: &Head, framing: Framing) -> Self
        ensures { result ≡ record self { ends = ends_behind head.now framing } }
    {
        let ends = match framing {
            Framing::Length(length) if persists(head) => Some(length),
            _ => None,
        };
        Content { ends, ..self }
    }

    /// Whether the body was read to its end, and the connection persists behind it.
    pub fn is_over(&self) -> bool
        ensures { IsTrue result → (self.now.ends ≡ Some self.now.behind)
            × (self.now.behind < 2 ^ 64 - 1) }
    {
        self.behind < u64::MAX && self.ends == Some(self.behind)
    }

    /// Reads bytes that wait, and puts those that are wanted at the end of `out`, at most `room` of them.
    pub fn read(
        &mut self,
        inbox: &mut Inbox,
        room: usize,
        out: &mut Vec<u8>,
        dropped: &mut Vec<u8>,
    ) -> SliceState
        requires some { 0 < length inbox.old }
        requires some_room { 0 < room }
        requires room { vec_len out.old + room ≤ vec_capacity out.old }
        requires dropped_room { MAX_PIECE_BYTES ≤ vec_capacity dropped.old }
        ensures reads { (asked : Asked) (received got : List ℕ)
            → IsReadTo asked received inbox.old got self.old Due
            → (added : List ℕ) × (out.new.items ≡ out.old.items ++ added)
            × IsReadTo asked received inbox.new (got ++ added) self.new (turn_by result self.new) }
        ensures len { vec_len out.new ≤ vec_len out.old + room }
        ensures capacity { vec_capacity out.old ≤ vec_capacity out.new }
        ensures dropped { vec_capacity dropped.old ≤ vec_capacity dropped.new }
        ensures less { result ≡ More → length inbox.new < length inbox.old }
    {
        final_heads_are_one_and_stay();
        let before = out.len();
        let read = self.reader.take(inbox.waiting(), room, out, dropped);
        inbox.pass(read.used);
        let behind = count_on(self.behind, read.used);
        self.behind = behind;
        let gained = out.len().saturating_sub(before);
        self.got = self.got.saturating_add(gained as u64);
        read.state
    }
}

/// What the head of a reply begins: a content with bytes that were asked for, or none where the resource was moved.
pub(crate) fn begin(head: &Head, asked: &Asked) -> Result<Option<Content>, Loss>
    requires ordered { asked.now.first ≤ asked.now.last }
    requires bounded { asked.now.last + 1 < 2 ^ 64 }
    requires total { (total : ℕ) × (asked.now.total ≡ Some total) × (asked.now.last < total) }
    ensures begun { IfOk result (λ begun. IfSome begun
        (λ content. IsBegun asked.now head.now content)) }
    ensures moved { result ≡ Ok None → verdict_of head.now asked.now ≡ Moved }
    ensures lost { IfErr result (λ loss. IsOwn loss × ((stream : List ℕ) (ended : Bool)
        → answer_by head.now asked.now (verdict_of head.now asked.now) stream ended
        ≡ without_bytes (Lost loss))) }
    ensures known { IfErr result IsKnown }
{
    numbers_and_ranges_are_read();
    match classify(head, asked) {
        Verdict::Part { last, framing, .. } => {
            let content = Content::new(framing, 0, asked.first, last);
            Ok(Some(content.under(head, framing)))
        }
        Verdict::Whole { framing, .. } => {
            let content = Content::new(framing, asked.first, asked.first, asked.last);
            Ok(Some(content.under(head, framing)))
        }
        Verdict::Moved => Ok(None),
        Verdict::Empty => Err(Loss::Refused {
            status: head.status,
            code: Code::of(ExitStatus::HttpReply),
        }),
        Verdict::WrongLength { told } => Err(Loss::Length {
            told,
            want: asked.total.unwrap_or(0),
        }),
        Verdict::NotFound => Err(Loss::NotFound),
        Verdict::Refused { code } => Err(Loss::Refused {
            status: head.status,
            code,
        }),
    }
}
