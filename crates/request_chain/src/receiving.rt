// How a chain receives its replies.
ghost use Rattle.std.specs.Prelude.{◌≡◌, ◌≢◌, ◌≤◌, ◌<◌, ◌+◌, ◌*◌, [], List, ℕ, true, false, Ok, IsTrue, OnOk, IfErr, length};
ghost use Rattle.reply_reader.specs.Losses.{IsKnown};
ghost use Rattle.request_chain.specs.Calls.{HearsMore, StaysAnswered};
ghost use Rattle.request_chain.specs.Links.{CountsLinkLoss};
ghost use Rattle.request_chain.specs.Stages.{IsHeardAt, IsUnheardAt};
ghost use Rattle.request_chain.specs.Turns.{weight_of};

use crate::chain::Chain;
use crate::exchange::link_loss;
use crate::stage::Stage;
use link_source::Links;
use reply_reader::{HeadReader, Loss, replies_are_read_short};
use std::alloc::Global;

impl Chain {
    /// Receives the first bytes of a reply over a connection that had another one before. The answer is false where its end
    /// was told: then the request is due once more.
    pub(crate) fn receive_first<L: Links>(
        &mut self,
        alloc: Global,
        link: &mut L,
        allow: u32,
    ) -> Result<bool, Loss>
        requires sent { IsUnheardAt self.old.stage }
        requires more { self.old.taken < allow }
        requires listens { IsTrue L.tells → (L.state link.old).listens ≡ true }
        ensures receives { IsTrue L.tells → HearsMore self.old (L.state link.old) result
            self.new (L.state link.new) (L.faults link.new) }
        ensures course { self.new.course ≡ self.old.course }
        ensures sent { result ≡ Ok true → IsHeardAt self.new.stage
            × (self.new.stage ≢ Stage.Asking) }
        ensures vain { result ≡ Ok false → (self.new.stage ≡ Stage.Asking)
            × (self.new.taken ≡ self.old.taken) × (weight_of self.new ≤ 2) }
        ensures tired { self.new.room.rests ≡ false }
        ensures peer { self.new.room.peer ≡ self.old.room.peer }
        ensures taken { result ≡ Ok true
            → self.new.taken ≡ self.old.taken + length self.new.room.inbox }
        ensures some { result ≡ Ok true → 0 < length self.new.room.inbox }
        ensures small { OnOk result (weight_of self.new ≤ 6 * length self.new.room.inbox + 2) }
        ensures few { self.new.taken ≤ allow }
        ensures listens { IsTrue L.tells → (L.state link.new).listens ≡ true }
        ensures at { IsTrue L.tells → (L.state link.new).peer ≡ (L.state link.old).peer }
        ensures link { IfErr result (CountsLinkLoss (L.faults link.old) (L.faults link.new)) }
        ensures known { IfErr result IsKnown }
        ensures answered { IsTrue L.tells
            → StaysAnswered self.old (L.state link.old) (L.state link.new) }
        ensures later { L.faults link.old ≤ L.faults link.new }
    {
        replies_are_read_short();
        let limit = (allow - self.taken).min(self.stage.most_asked());
        match self.room.inbox.refill(link, limit) {
            Ok(0) => {
                self.stage = Stage::Asking;
                Ok(false)
            }
            Ok(first) => {
                self.taken += first;
                self.stage = Stage::Head(HeadReader::new(alloc));
                Ok(true)
            }
            Err(error) => {
                self.stage.check(alloc)?;
                Err(link_loss(link, error))
            }
        }
    }

    /// Receives more of the newest exchange, where nothing waits.
    pub(crate) fn receive<L: Links>(
        &mut self,
        alloc: Global,
        link: &mut L,
        allow: u32,
    ) -> Result<(), Loss>
        requires sent { self.old.stage ≢ Stage.Asking }
        requires heard { IsHeardAt self.old.stage }
        requires none_waits { self.old.room.inbox ≡ [] }
        requires more { self.old.taken < allow }
        requires listens { IsTrue L.tells → (L.state link.old).listens ≡ true }
        ensures receives { IsTrue L.tells → HearsMore self.old (L.state link.old) result
            self.new (L.state link.new) (L.faults link.new) }
        ensures course { self.new.course ≡ self.old.course }
        ensures stage { self.new.stage ≡ self.old.stage }
        ensures taken { OnOk result (self.new.taken ≡ self.old.taken + length self.new.room.inbox) }
        ensures same { IfErr result (λ _. self.new.taken ≡ self.old.taken) }
        ensures some { OnOk result (0 < length self.new.room.inbox) }
        ensures few { self.new.taken ≤ allow }
        ensures room { (self.new.room.peer ≡ self.old.room.peer)
            × (self.new.room.rests ≡ self.old.room.rests) }
        ensures listens { IsTrue L.tells → (L.state link.new).listens ≡ true }
        ensures at { IsTrue L.tells → (L.state link.new).peer ≡ (L.state link.old).peer }
        ensures link { IfErr result (CountsLinkLoss (L.faults link.old) (L.faults link.new)) }
        ensures known { IfErr result IsKnown }
        ensures answered { IsTrue L.tells
            → StaysAnswered self.old (L.state link.old) (L.state link.new) }
        ensures later { L.faults link.old ≤ L.faults link.new }
    {
        replies_are_read_short();
        let most = (allow - self.taken).min(self.stage.most_asked());
        match self.room.inbox.refill(link, most) {
            Ok(0) => {
                self.stage.check(alloc)?;
                Err(Loss::Short {
                    got: self.stage.got(),
                })
            }
            Ok(count) => {
                self.taken += count;
                Ok(())
            }
            Err(error) => {
                self.stage.check(alloc)?;
                Err(link_loss(link, error))
            }
        }
    }
}
