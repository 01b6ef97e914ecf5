// The text of an answer, in which what repeats stands once.
ghost use Rattle.std.specs.Prelude.{◌≡◌, ◌++◌, ◌<◌, ◌==◌, [], length, vec_len, vec_capacity, IfOk, MatchResult};
ghost use Rattle.std.specs.Str.{IsUtf8};
ghost use Rattle.rpc_envelope.specs.Texts.{passage_text, passages_text};

use dl_kinds::{NoMemory, Text};
use std::alloc::Global;
use std::marker::Model;
use std::str::from_utf8;

/// A text, and how many times it stands there, one behind the other.
#[derive(Debug, Drop)]
pub struct Passage {
    pub text: Vec<u8>,
    pub times: usize,
}

/// The text of an answer, in passages. One that repeats takes memory once, so that an answer is no larger than what it
/// tells: a batch of members that are no requests has the same answer to each.
#[derive(Debug, Drop)]
pub struct LongText {
    passages: Vec<Passage>,
    len: usize,
}

impl Model for LongText {
    ghost use Rattle.std.specs.Prelude.{ℕ, List};
    ghost use Rattle.rpc_envelope.specs.Texts.{IsWhole, passages_text};

    ghost Value = { List ℕ };

    ghost view = { λ text. passages_text text.passages.items };

    ghost invariant = { λ text. IsWhole text.len text.passages.items };
}

// Puts a text behind the passages.
fn put_behind(passages: &mut Vec<Passage>, text: Vec<u8>)
    requires { vec_len passages.old < vec_capacity passages.old }
    ensures { passages_text passages.new.items ≡ passages_text passages.old.items ++ text.items }
{
    let Some(last) = passages.pop() else {
        passages.push_reserved(Passage { text, times: 1 });
        return;
    };
    if last.times < usize::MAX && last.text == text {
        let times = last.times + 1;
        passages.push_reserved(Passage { text, times });
    } else {
        passages.push_reserved(last);
        passages.push_reserved(Passage { text, times: 1 });
    }
}

// Puts a passage behind the bytes.
fn put_passage(bytes: &mut Vec<u8>, passage: &Passage) -> Result<(), NoMemory>
    ensures { IfOk result (λ _. bytes.new.items ≡ bytes.old.items ++ passage_text passage.now) }
{
    for _ in 0..passage.times {
        bytes.extend_from_slice(&passage.text)?;
    }
    Ok(())
}

// The bytes of passages, in order.
fn bytes_of(alloc: Global, len: usize, passages: &[Passage]) -> Result<Vec<u8>, NoMemory>
    ensures { IfOk result (λ bytes. bytes.items ≡ passages_text passages.now) }
{
    let mut bytes = Vec::with_capacity(alloc, len)?;
    for passage in passages {
        put_passage(&mut bytes, passage)?;
    }
    Ok(bytes)
}

impl LongText {
    pub(crate) fn new(alloc: Global) -> Self
        ensures { result ≡ [] }
    {
        LongText {
            passages: Vec::new(alloc),
            len: 0,
        }
    }

    /// Puts a text behind. Want of memory is also answered where the whole would be longer than can be counted.
    pub(crate) fn push(&mut self, text: Vec<u8>) -> Result<(), NoMemory>
        requires utf8 { IsUtf8 text.items }
        ensures { MatchResult result (λ _. self.new ≡ self.old ++ text.items)
            (λ _. self.new ≡ self.old) }
    {
        let Some(len) = self.len.checked_add(text.len()) else {
            return Err(NoMemory);
        };
        self.passages.reserve(1)?;
        put_behind(&mut self.passages, text);
        self.len = len;
        Ok(())
    }

    /// The passages, in order.
    pub fn passages(&self) -> &[Passage]
        ensures { passages_text result.now ≡ self.now }
    {
        &self.passages
    }

    /// The whole, in one piece.
    pub fn text(&self, alloc: Global) -> Result<Text, NoMemory>
        ensures { IfOk result (λ text. text ≡ self.now) }
    {
        let bytes = bytes_of(alloc, self.len, &self.passages)?;
        let text = from_utf8(&bytes).unwrap();
        Ok(Text::of(alloc, text)?)
    }

    pub fn len(&self) -> usize
        ensures { result ≡ length self.now }
    {
        self.len
    }

    pub fn is_empty(&self) -> bool
        ensures { result ≡ (length self.now == 0) }
    {
        self.len == 0
    }
}
