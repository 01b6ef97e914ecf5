// Responses, sent in pieces as they are made.
ghost use Rattle.std.specs.Prelude.{◌≡◌, Some, true, option_map, IsTrue};
ghost use Rattle.request_stream.specs.Responses.{served_response};
ghost use Rattle.rpc_envelope.specs.Texts.{passage_text, passages_text};
ghost use Rattle.console_http.specs.Writing.{HasSent, HasWritten, writer_at};

use crate::intake::PIECE_BYTES;
use dl_kinds::IoErr;
use door_source::{Doors, newest_connection_is_one};
use request_stream::response_head;
use rpc_envelope::{LongText, Passage};
use std::alloc::Global;

// Writes a text behind what waits to be sent, and sends all of that where it is a piece or more.
#[tactic(auto, using(crate::proofs::WritingLemmas::puts_behind, crate::proofs::WritingLemmas::sends_waiting, crate::proofs::WritingLemmas::not_put, crate::proofs::WritingLemmas::not_flushed))]
fn write_text<A: Doors>(door: &mut A, waiting: &mut Vec<u8>, text: &[u8]) -> Result<(), IoErr>
    requires opened { IsTrue A.tells → (A.state door.old).is_open ≡ true }
    ensures stays_open { IsTrue A.tells → (A.state door.new).is_open ≡ true }
    ensures written { HasWritten A.Doors text.now (writer_at door.old waiting.old.items)
        (writer_at door.new waiting.new.items) result }
{
    waiting.extend_from_slice(text)?;
    if waiting.len() < PIECE_BYTES {
        return Ok(());
    }
    match door.send(waiting) {
        Ok(()) => {
            waiting.clear();
            Ok(())
        }
        Err(error) => Err(error),
    }
}

// Writes a passage, as many times as it stands there.
#[tactic(auto, using(crate::proofs::WritingLemmas::writes_none))]
fn write_passage<A: Doors>(
    door: &mut A,
    waiting: &mut Vec<u8>,
    passage: &Passage,
) -> Result<(), IoErr>
    requires opened { IsTrue A.tells → (A.state door.old).is_open ≡ true }
    ensures stays_open { IsTrue A.tells → (A.state door.new).is_open ≡ true }
    ensures written { HasWritten A.Doors (passage_text passage.now)
        (writer_at door.old waiting.old.items) (writer_at door.new waiting.new.items) result }
{
    newest_connection_is_one();
    for _ in 0..passage.times {
        write_text(door, waiting, &passage.text)?;
    }
    Ok(())
}

#[tactic(auto, using(crate::proofs::WritingLemmas::writes_none))]
fn write_passages<A: Doors>(
    door: &mut A,
    waiting: &mut Vec<u8>,
    passages: &[Passage],
) -> Result<(), IoErr>
    requires opened { IsTrue A.tells → (A.state door.old).is_open ≡ true }
    ensures stays_open { IsTrue A.tells → (A.state door.new).is_open ≡ true }
    ensures written { HasWritten A.Doors (passages_text passages.now)
        (writer_at door.old waiting.old.items) (writer_at door.new waiting.new.items) result }
{
    newest_connection_is_one();
    for passage in passages {
        write_passage(door, waiting, passage)?;
    }
    Ok(())
}

/// Sends the response to a request that is served, by the text of its answer, if it has one. No more of it than a piece and
/// one passage stands in memory beside the answer.
#[tactic(auto, using(crate::proofs::WritingLemmas::sends_whole, crate::proofs::WritingLemmas::not_sent))]
pub(crate) fn send_response<A: Doors>(
    alloc: Global,
    door: &mut A,
    answer: &Option<LongText>,
) -> Result<(), IoErr>
    requires opened { IsTrue A.tells → (A.state door.old).is_open ≡ true }
    ensures stays_open { IsTrue A.tells → (A.state door.new).is_open ≡ true }
    ensures sent { HasSent A.Doors (served_response answer.now) door.old door.new result }
{
    newest_connection_is_one();
    let Some(text) = answer else {
        return door.send(&response_head(alloc, None)?);
    };
    let mut waiting = response_head(alloc, Some(text.len()))?;
    write_passages(door, &mut waiting, text.passages())?;
    door.send(&waiting)
}
