// How a chain reads what came.
ghost use Rattle.std.specs.Prelude.{◌≡◌, ◌≢◌, ◌⊎◌, ◌≤◌, ◌<◌, ◌+◌, ◌-◌, ◌*◌, ◌^◌, ◌++◌, [], List, ℕ, true, false, Some, IsTrue, OnOk, IfErr, length, vec_len, vec_capacity};
ghost use Rattle.link_source.specs.Exchanges.{Exchange};
ghost use Rattle.reply_reader.specs.Losses.{IsKnown};
ghost use Rattle.reply_reader.specs.declared.loss.Loss.TheVariants.{Link};
ghost use Rattle.request_chain.specs.Calls.{MovesOrLoses};
ghost use Rattle.request_chain.specs.Contents.{IsReadWhole};
ghost use Rattle.request_chain.specs.Courses.{plan_now, IsAsking};
ghost use Rattle.request_chain.specs.Plans.{asked_of};
ghost use Rattle.request_chain.specs.Rests.{NewestIsWhole};
ghost use Rattle.request_chain.specs.Stages.{IsReading, IsReadingContent, IsReadingHead};
ghost use Rattle.request_chain.specs.Turns.{HasMoved, HeadIsRead, weight_of};
ghost use Rattle.span_map.specs.declared.jobs.JobPart.{JobPart};

use crate::chain::Chain;
use crate::content::{Content, begin};
use crate::course::Moved;
use crate::redirect::target;
use crate::room::ChainRoom;
use crate::stage::Stage;
use dl_kinds::{Code, ExitStatus};
use http_heads::Head;
use reply_reader::{
    HeadReader, HeadsRead, Loss, SliceState, final_heads_are_one_and_stay, streams_have_one_answer,
};
use std::alloc::Global;
use std::mem;

impl Chain {
    // Follows the resource to where the head says that it is.
    fn follow(&mut self, alloc: Global, head: &Head) -> Result<(), Loss>
        requires asking { IsAsking (plan_now self.old.course) }
        requires none_open { self.old.stage ≡ Stage.Asking }
        ensures follows { (parts : List JobPart) (used : List Exchange) (bytes : List ℕ)
            → HeadIsRead parts used self.old.course self.old.room.inbox bytes head.now
            → HasMoved self.old.course head.now → MovesOrLoses parts used bytes result self.new }
        ensures small { OnOk result (weight_of self.new ≤ 5) }
        ensures taken { self.new.taken ≡ self.old.taken }
        ensures peer { self.new.room.peer ≡ self.old.room.peer }
        ensures rests { self.new.room.rests ≡ self.old.room.rests }
        ensures own { IfErr result (λ loss. (count : ℕ) → loss ≡ Link count → ⊥) }
        ensures known { IfErr result IsKnown }
    {
        final_heads_are_one_and_stay();
        if self.course.is_moved_often() {
            return Err(Loss::Redirects);
        }
        match target(alloc, self.course.url(), head) {
            Ok(Some(url)) => {
                self.room.inbox.clear();
                self.course.follow(Moved {
                    url,
                    status: head.status,
                });
                Ok(())
            }
            Ok(None) => Err(Loss::Refused {
                status: head.status,
                code: Code::of(ExitStatus::HttpReply),
            }),
            Err(_) => Err(Loss::NoMemory),
        }
    }

    // Goes on by the head of the reply.
    fn start(&mut self, alloc: Global, head: &Head) -> Result<(), Loss>
        requires asking { IsAsking (plan_now self.old.course) }
        requires none_open { self.old.stage ≡ Stage.Asking }
        requires busy { self.old.room.rests ≡ false }
        ensures starts { (parts : List JobPart) (used : List Exchange) (bytes : List ℕ)
            → HeadIsRead parts used self.old.course self.old.room.inbox bytes head.now
            → MovesOrLoses parts used bytes result self.new }
        ensures small { OnOk result ((weight_of self.new ≤ 6 * length self.old.room.inbox)
            ⊎ (weight_of self.new ≤ 5)) }
        ensures taken { self.new.taken ≡ self.old.taken }
        ensures peer { self.new.room.peer ≡ self.old.room.peer }
        ensures rests { self.new.room.rests ≡ self.old.room.rests }
        ensures own { IfErr result (λ loss. (count : ℕ) → loss ≡ Link count → ⊥) }
        ensures known { IfErr result IsKnown }
    {
        final_heads_are_one_and_stay();
        let asked = self.course.asked();
        let begun = begin(head, &asked)?;
        match begun {
            Some(content) => {
                self.stage = Stage::Content(content);
                Ok(())
            }
            None => self.follow(alloc, head),
        }
    }

    // Reads on a head, with all that waits.
    fn read_head(&mut self, alloc: Global, reader: HeadReader) -> Result<(), Loss>
        requires asking { IsAsking (plan_now self.old.course) }
        requires none_open { self.old.stage ≡ Stage.Asking }
        requires busy { self.old.room.rests ≡ false }
        requires some { 0 < length self.old.room.inbox }
        ensures reads { (parts : List JobPart) (used : List Exchange) (bytes : List ℕ)
            → IsReadingHead parts used self.old.course self.old.room.inbox bytes reader
            → MovesOrLoses parts used bytes result self.new }
        ensures smaller { OnOk result (weight_of self.new < 6 * length self.old.room.inbox + 1) }
        ensures taken { self.new.taken ≡ self.old.taken }
        ensures peer { self.new.room.peer ≡ self.old.room.peer }
        ensures rests { self.new.room.rests ≡ self.old.room.rests }
        ensures own { IfErr result (λ loss. (count : ℕ) → loss ≡ Link count → ⊥) }
        ensures known { IfErr result IsKnown }
    {
        final_heads_are_one_and_stay();
        let mut reader = reader;
        match self.room.inbox.read_head(alloc, &mut reader) {
            HeadsRead::Whole { head, .. } => self.start(alloc, &head),
            HeadsRead::More => {
                self.stage = Stage::Head(reader);
                Ok(())
            }
            HeadsRead::Bad => Err(Loss::BadReply),
            HeadsRead::NoMemory => Err(Loss::NoMemory),
        }
    }

    // Whether the body ended just where it was read, and the connection persists behind it.
    fn is_read_whole(&self, content: &Content) -> bool
        ensures { IsTrue result → (self.now.room.inbox ≡ [])
            × (content.now.ends ≡ Some content.now.behind) × (content.now.behind < 2 ^ 64 - 1) }
    {
        self.room.inbox.is_empty() && content.is_over()
    }

    // Reads on a content.
    fn read_content(&mut self, content: Content, out: &mut Vec<u8>, room: usize) -> Result<(), Loss>
        requires asking { IsAsking (plan_now self.old.course) }
        requires none_open { self.old.stage ≡ Stage.Asking }
        requires busy { self.old.room.rests ≡ false }
        requires some { 0 < length self.old.room.inbox }
        requires some_room { 0 < room }
        requires room { vec_len out.old + room ≤ vec_capacity out.old }
        ensures reads { (parts : List JobPart) (used : List Exchange) (bytes : List ℕ)
            → IsReadingContent parts used self.old.course self.old.room.inbox bytes content
            → (added : List ℕ) × (out.new.items ≡ out.old.items ++ added)
            × MovesOrLoses parts used (bytes ++ added) result self.new }
        // The connection may take another request only where the reply was read whole, and nothing more.
        ensures whole { self.new.room.rests ≡ true
            → (parts : List JobPart) (used : List Exchange) (bytes : List ℕ)
            → (reading : IsReadingContent parts used self.old.course self.old.room.inbox bytes
            content)
            → IsReadWhole (asked_of reading.sent.part) reading.sent.newest.received }
        ensures len { vec_len out.new ≤ vec_len out.old + room }
        ensures capacity { vec_capacity out.old ≤ vec_capacity out.new }
        ensures smaller { OnOk result (weight_of self.new < 6 * length self.old.room.inbox) }
        ensures taken { self.new.taken ≡ self.old.taken }
        ensures peer { self.new.room.peer ≡ self.old.room.peer }
        ensures own { IfErr result (λ loss. (count : ℕ) → loss ≡ Link count → ⊥) }
        ensures known { IfErr result IsKnown }
    {
        final_heads_are_one_and_stay();
        streams_have_one_answer();
        let mut content = content;
        let ChainRoom { inbox, dropped, .. } = &mut self.room;
        match content.read(inbox, room, out, dropped) {
            SliceState::More => {
                self.stage = Stage::Content(content);
                Ok(())
            }
            SliceState::Come => {
                self.room.rests = self.is_read_whole(&content);
                self.room.inbox.clear();
                self.course.come_to(content.last);
                Ok(())
            }
            SliceState::Wrong => Err(Loss::BadReply),
            SliceState::Over => Err(Loss::Short { got: content.got }),
        }
    }

    /// Reads bytes that wait.
    pub(crate) fn read_on(
        &mut self,
        alloc: Global,
        out: &mut Vec<u8>,
        room: usize,
    ) -> Result<(), Loss>
        requires asking { IsAsking (plan_now self.old.course) }
        requires sent { self.old.stage ≢ Stage.Asking }
        requires some { 0 < length self.old.room.inbox }
        requires some_room { 0 < room }
        requires room { vec_len out.old + room ≤ vec_capacity out.old }
        ensures reads { (parts : List JobPart) (used : List Exchange) (bytes : List ℕ)
            → IsReading self.old.stage self.old.course self.old.room.inbox parts used bytes
            → (added : List ℕ) × (out.new.items ≡ out.old.items ++ added)
            × MovesOrLoses parts used (bytes ++ added) result self.new }
        ensures whole { self.new.room.rests ≡ true
            → (parts : List JobPart) (used : List Exchange) (bytes : List ℕ)
            → IsReading self.old.stage self.old.course self.old.room.inbox parts used bytes
            → NewestIsWhole used }
        ensures len { vec_len out.new ≤ vec_len out.old + room }
        ensures capacity { vec_capacity out.old ≤ vec_capacity out.new }
        ensures smaller { OnOk result (weight_of self.new < weight_of self.old) }
        ensures taken { self.new.taken ≡ self.old.taken }
        ensures peer { self.new.room.peer ≡ self.old.room.peer }
        ensures own { IfErr result (λ loss. (count : ℕ) → loss ≡ Link count → ⊥) }
        ensures known { IfErr result IsKnown }
    {
        match mem::replace(&mut self.stage, Stage::Asking) {
            Stage::Asking => Ok(()),
            Stage::Unheard(reader) => self.read_head(alloc, reader),
            Stage::Head(reader) => self.read_head(alloc, reader),
            Stage::Content(content) => self.read_content(content, out, room),
        }
    }
}
