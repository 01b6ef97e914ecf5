// How a chain sends its requests.
ghost use Rattle.std.specs.Prelude.{◌≡◌, ◌<◌, ◌≤◌, List, ℕ, true, false, Ok, IsTrue, OnOk, IfErr};
ghost use Rattle.link_source.specs.Exchanges.{Exchange};
ghost use Rattle.reply_reader.specs.Losses.{IsKnown};
ghost use Rattle.reply_reader.specs.declared.loss.Loss.TheVariants.{Link};
ghost use Rattle.request_chain.specs.Answered.{KeepsAnswers};
ghost use Rattle.request_chain.specs.Calls.{SendsOrLoses};
ghost use Rattle.request_chain.specs.Courses.{plan_now, IsAsking};
ghost use Rattle.request_chain.specs.Links.{CountsLinkLoss};
ghost use Rattle.request_chain.specs.Turns.{IfUnusable, MayGoOn, weight_of};

use crate::chain::Chain;
use crate::exchange::{send_again, send_request};
use crate::stage::Stage;
use link_source::Links;
use reply_reader::{HeadReader, Loss};
use std::alloc::Global;

impl Chain {
    // Sends the next request on a new connection.
    fn ask_first<L: Links>(&mut self, alloc: Global, link: &mut L) -> Result<(), Loss>
        requires asking { IsAsking (plan_now self.old.course) }
        requires none_open { self.old.stage ≡ Stage.Asking }
        ensures asks { IsTrue L.tells → SendsOrLoses self.old (L.state link.old) result
            self.new (L.state link.new) (L.faults link.new) }
        ensures course { self.new.course ≡ self.old.course }
        ensures taken { self.new.taken ≡ self.old.taken }
        ensures tired { self.new.room.rests ≡ false }
        ensures smaller { OnOk result (weight_of self.new < weight_of self.old) }
        ensures usable { OnOk result (IfUnusable self.old ⊥) }
        ensures untouched { IfUnusable self.old (link.new ≡ link.old) }
        ensures may { OnOk result (IsTrue L.tells → MayGoOn self.new (L.state link.new)) }
        ensures link { IfErr result (CountsLinkLoss (L.faults link.old) (L.faults link.new)) }
        ensures known { IfErr result IsKnown }
        ensures answered { IsTrue L.tells → (before : List Exchange)
            → KeepsAnswers before (L.state link.old) (L.state link.new) }
        ensures later { L.faults link.old ≤ L.faults link.new }
    {
        self.room.rests = false;
        let asked = self.course.asked();
        let peer = send_request(alloc, link, self.course.url(), self.course.status(), &asked)?;
        self.room.peer = Some(peer);
        self.stage = Stage::Head(HeadReader::new(alloc));
        Ok(())
    }

    // Sends the next request over the connection that is open, if it leads there. The answer is whether it was sent.
    fn ask_again<L: Links>(&mut self, alloc: Global, link: &mut L) -> Result<bool, Loss>
        requires asking { IsAsking (plan_now self.old.course) }
        requires none_open { self.old.stage ≡ Stage.Asking }
        requires rests { self.old.room.rests ≡ true }
        requires may { IsTrue L.tells → MayGoOn self.old (L.state link.old) }
        ensures asks { IsTrue L.tells → SendsOrLoses self.old (L.state link.old) result
            self.new (L.state link.new) (L.faults link.new) }
        ensures course { self.new.course ≡ self.old.course }
        ensures taken { self.new.taken ≡ self.old.taken }
        ensures tired { self.new.room.rests ≡ false }
        ensures smaller { OnOk result (weight_of self.new < weight_of self.old) }
        ensures unsent { result ≡ Ok false → self.new.stage ≡ Stage.Asking }
        ensures usable { result ≡ Ok true → IfUnusable self.old ⊥ }
        ensures untouched { IfUnusable self.old (link.new ≡ link.old) }
        ensures may { OnOk result (IsTrue L.tells → MayGoOn self.new (L.state link.new)) }
        ensures own { IfErr result (λ loss. (count : ℕ) → loss ≡ Link count → ⊥) }
        ensures known { IfErr result IsKnown }
        ensures answered { IsTrue L.tells → (before : List Exchange)
            → KeepsAnswers before (L.state link.old) (L.state link.new) }
        ensures later { L.faults link.old ≤ L.faults link.new }
    {
        self.room.rests = false;
        let asked = self.course.asked();
        let Some(peer) = self.room.peer.take() else {
            return Ok(false);
        };
        let url = self.course.url();
        let sent = send_again(alloc, link, &peer, url, self.course.status(), &asked)?;
        self.room.peer = Some(peer);
        if !sent {
            return Ok(false);
        }
        self.stage = Stage::Unheard(HeadReader::new(alloc));
        Ok(true)
    }

    /// Sends the next request, over the connection that is open or a new one.
    pub(crate) fn ask<L: Links>(&mut self, alloc: Global, link: &mut L) -> Result<(), Loss>
        requires asking { IsAsking (plan_now self.old.course) }
        requires none_open { self.old.stage ≡ Stage.Asking }
        requires may { IsTrue L.tells → MayGoOn self.old (L.state link.old) }
        ensures asks { IsTrue L.tells → SendsOrLoses self.old (L.state link.old) result
            self.new (L.state link.new) (L.faults link.new) }
        ensures course { self.new.course ≡ self.old.course }
        ensures taken { self.new.taken ≡ self.old.taken }
        ensures tired { self.new.room.rests ≡ false }
        ensures smaller { OnOk result (weight_of self.new < weight_of self.old) }
        ensures usable { OnOk result (IfUnusable self.old ⊥) }
        ensures untouched { IfUnusable self.old (link.new ≡ link.old) }
        ensures may { OnOk result (IsTrue L.tells → MayGoOn self.new (L.state link.new)) }
        ensures link { IfErr result (CountsLinkLoss (L.faults link.old) (L.faults link.new)) }
        ensures known { IfErr result IsKnown }
        ensures answered { IsTrue L.tells → (before : List Exchange)
            → KeepsAnswers before (L.state link.old) (L.state link.new) }
        ensures later { L.faults link.old ≤ L.faults link.new }
    {
        if !self.room.rests {
            return self.ask_first(alloc, link);
        }
        if self.ask_again(alloc, link)? {
            return Ok(());
        }
        self.ask_first(alloc, link)
    }
}
