// The bytes of a reply's content from a place on, as they come.
ghost use Rattle.std.specs.Prelude.{◌≡◌, ◌≤◌, ◌<◌, ◌+◌, ◌++◌, [], ℕ, true, length, take, vec_len, vec_capacity};
ghost use Rattle.body_frames.specs.Bodies.{content_of, GainAlike};
ghost use Rattle.body_frames.specs.Reading.{IsFed, ForEachStream};
ghost use Rattle.reply_reader.specs.Slices.{framing_told, came_of, has_come, content_state, slice_state, IsSliceDue, IsSliceWrong, IsSliceOver, IsAtSlice, ForEachSlice};
ghost use Rattle.reply_reader.specs.declared.slices.TheConstants.{MAX_PIECE_BYTES};
ghost use Rattle.reply_reader.specs.declared.slices.SliceState.TheVariants.{More, Come, Wrong, Over};

use body_frames::{Body, Fed, pieces_join};
use range_http::Framing;

/// The most bytes of one piece of a stream.
pub const MAX_PIECE_BYTES: usize = 65_536;

/// Reads the bytes of a content from a place on, so many of them, as they come.
#[derive(Debug, Drop)]
pub struct SliceReader {
    body: Body,
    /// How many bytes of the content are still to be dropped.
    skip: u64,
    /// How many are still to come behind those.
    left: u64,
}

/// How it stands with the bytes of a slice.
#[derive(Clone, Copy, Debug, PartialEq, Eq)]
pub enum SliceState {
    /// More are due.
    More,
    /// All came.
    Come,
    /// The stream is wrong.
    Wrong,
    /// The content is over before all came.
    Over,
}

/// How many bytes of a piece were taken, and how it stands then.
#[derive(Clone, Copy, Debug, PartialEq, Eq)]
pub struct SliceRead {
    pub used: u32,
    pub state: SliceState,
}

fn new_body(framing: Framing) -> Body
    ensures fed { IsFed (framing_told framing) [] result }
    ensures nothing_yet { content_of (framing_told framing) [] ≡ [] }
{
    match framing {
        Framing::Length(len) => Body::length(len),
        Framing::Chunked => Body::chunked(),
        Framing::ToEnd => Body::to_end(),
    }
}

/// Feeds these bytes to the body, for whose content there is room, and says how it stands with the content then.
fn feed(body: &mut Body, bytes: &[u8], out: &mut Vec<u8>) -> SliceState
    requires few { length bytes.now ≤ MAX_PIECE_BYTES }
    requires room { vec_len out.old + length bytes.now ≤ vec_capacity out.old }
    ensures fed { ForEachStream body.old
        (λ framing stream. IsFed framing (stream ++ bytes.now) body.new) }
    ensures content { ForEachStream body.old
        (λ framing stream. GainAlike (content_of framing stream)
        (content_of framing (stream ++ bytes.now)) out.old.items out.new.items) }
    ensures state { ForEachStream body.old
        (λ framing stream. result ≡ content_state framing (stream ++ bytes.now)) }
    ensures grows { vec_len out.old ≤ vec_len out.new }
    ensures len { vec_len out.new ≤ vec_len out.old + length bytes.now }
    ensures capacity { vec_capacity out.old ≤ vec_capacity out.new }
{
    pieces_join();
    match body.feed(bytes, out) {
        Ok(Fed { done: true, .. }) => SliceState::Over,
        Ok(_) => SliceState::More,
        Err(_) => SliceState::Wrong,
    }
}

impl SliceReader {
    /// Reads the `len` bytes of a content before which `skip` bytes stand.
    pub fn new(framing: Framing, skip: u64, len: u64) -> Self
        ensures at { IsAtSlice (record { framing = framing_told framing; skip = skip; len = len })
            [] result }
    {
        SliceReader {
            body: new_body(framing),
            skip,
            left: len,
        }
    }

    /// Takes bytes from the front of the next piece of the stream, and puts the slice's at the end of `out`, at most
    /// `room` of them. Those before the slice go through `dropped`, whose bytes don't matter. No memory is taken.
    ///
    /// Where the slice came, none is taken. After a fault it stays wrong, and after the content's end over.
    pub fn take(
        &mut self,
        piece: &[u8],
        room: usize,
        out: &mut Vec<u8>,
        dropped: &mut Vec<u8>,
    ) -> SliceRead
        requires some { 0 < length piece.now }
        requires few { length piece.now ≤ MAX_PIECE_BYTES }
        requires some_room { 0 < room }
        requires room { vec_len out.old + room ≤ vec_capacity out.old }
        requires dropped_room { MAX_PIECE_BYTES ≤ vec_capacity dropped.old }
        ensures used { result.used ≤ length piece.now }
        ensures progress { result.state ≡ More → 0 < result.used }

        // The reader was given the bytes used too, and out gained the bytes of the slice that they bring.
        ensures at { ForEachSlice self.old (λ slice stream.
            IsAtSlice slice (stream ++ take result.used piece.now) self.new) }
        ensures gained { ForEachSlice self.old (λ slice stream.
            GainAlike (came_of slice stream) (came_of slice
            (stream ++ take result.used piece.now)) out.old.items out.new.items) }
        ensures len { vec_len out.new ≤ vec_len out.old + room }
        ensures capacity { vec_capacity out.old ≤ vec_capacity out.new }
        ensures dropped { vec_capacity dropped.old ≤ vec_capacity dropped.new }

        // How it stands with the slice.
        ensures more { result.state ≡ More → ForEachSlice self.old (λ slice stream.
            IsSliceDue slice (stream ++ take result.used piece.now)) }
        ensures come { result.state ≡ Come → ForEachSlice self.old (λ slice stream.
            has_come slice (stream ++ take result.used piece.now) ≡ true) }
        ensures wrong { result.state ≡ Wrong → ForEachSlice self.old (λ slice stream.
            IsSliceWrong slice (stream ++ take result.used piece.now)) }
        ensures over { result.state ≡ Over → ForEachSlice self.old (λ slice stream.
            IsSliceOver slice (stream ++ take result.used piece.now)) }
    {
        if self.left == 0 {
            return SliceRead {
                used: 0,
                state: SliceState::Come,
            };
        }
        if self.skip > 0 {
            self.pass(piece, dropped)
        } else {
            self.gain(piece, room, out)
        }
    }

    // Takes bytes before the slice.
    fn pass(&mut self, piece: &[u8], dropped: &mut Vec<u8>) -> SliceRead
        requires some { 0 < length piece.now }
        requires few { length piece.now ≤ MAX_PIECE_BYTES }
        requires due { 0 < self.old.left }
        requires before { 0 < self.old.skip }
        requires room { MAX_PIECE_BYTES ≤ vec_capacity dropped.old }
        ensures used { result.used ≤ length piece.now }
        ensures progress { 0 < result.used }
        ensures at { ForEachSlice self.old (λ slice stream.
            IsAtSlice slice (stream ++ take result.used piece.now) self.new) }
        ensures gained { ForEachSlice self.old (λ slice stream.
            came_of slice (stream ++ take result.used piece.now) ≡ came_of slice stream) }
        ensures state { ForEachSlice self.old (λ slice stream.
            result.state ≡ slice_state slice (stream ++ take result.used piece.now)) }
        ensures dropped { vec_capacity dropped.old ≤ vec_capacity dropped.new }
    {
        dropped.clear();
        let used = piece.len().min(self.skip as usize);
        let state = feed(&mut self.body, &piece[..used], dropped);
        self.skip -= dropped.len() as u64;
        SliceRead {
            used: used as u32,
            state,
        }
    }

    // Takes bytes from the slice on.
    fn gain(&mut self, piece: &[u8], room: usize, out: &mut Vec<u8>) -> SliceRead
        requires some { 0 < length piece.now }
        requires few { length piece.now ≤ MAX_PIECE_BYTES }
        requires due { 0 < self.old.left }
        requires behind { self.old.skip ≡ 0 }
        requires some_room { 0 < room }
        requires room { vec_len out.old + room ≤ vec_capacity out.old }
        ensures used { result.used ≤ length piece.now }
        ensures progress { 0 < result.used }
        ensures at { ForEachSlice self.old (λ slice stream.
            IsAtSlice slice (stream ++ take result.used piece.now) self.new) }
        ensures gained { ForEachSlice self.old (λ slice stream.
            GainAlike (came_of slice stream) (came_of slice
            (stream ++ take result.used piece.now)) out.old.items out.new.items) }
        ensures state { ForEachSlice self.old (λ slice stream.
            result.state ≡ slice_state slice (stream ++ take result.used piece.now)) }
        ensures len { vec_len out.new ≤ vec_len out.old + room }
        ensures capacity { vec_capacity out.old ≤ vec_capacity out.new }
    {
        let before = out.len();
        let used = piece.len().min(room).min(self.left as usize);
        let state = feed(&mut self.body, &piece[..used], out);
        self.left -= (out.len() - before) as u64;
        SliceRead {
            used: used as u32,
            state: if self.left == 0 {
                SliceState::Come
            } else {
                state
            },
        }
    }
}
