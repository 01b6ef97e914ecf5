// How long a resource is.
ghost use Rattle.std.specs.Prelude.{◌≡◌, ◌≤◌, List, IsTrue, OnOk, IfOk, IfErr, MatchResult};
ghost use Rattle.link_source.specs.Endpoint.{IsUsable};
ghost use Rattle.link_source.specs.Exchanges.{Exchange};
ghost use Rattle.reply_reader.specs.Losses.{IsKnown};
ghost use Rattle.request_chain.specs.Answered.{KeepsAnswers};
ghost use Rattle.request_chain.specs.Chains.{Gains};
ghost use Rattle.request_chain.specs.Links.{CountsLinkLoss};
ghost use Rattle.request_chain.specs.Probes.{Told};
ghost use Rattle.request_chain.specs.Rests.{LetsGo, RestsOn, RestsWhole};
ghost use Rattle.part_fetches.specs.Probes.{Probed, TellsProbeLoss};
ghost use Rattle.part_readers.specs.Asks.{LeadsToPlace};

use crate::rooms::PartRooms;
use dl_kinds::NoMemory;
use ftp_places::{FtpErr, FtpPlace};
use link_source::Links;
use reply_reader::Loss;
use std::alloc::Global;

// The file on an FTP server to which a URL leads, if it does.
fn place_of(alloc: Global, url: &str) -> Result<Option<FtpPlace>, NoMemory>
    ensures { IfOk result (LeadsToPlace url.now) }
{
    match FtpPlace::of(alloc, url) {
        Ok(place) => Ok(Some(place)),
        Err(FtpErr::NotUrl | FtpErr::Scheme | FtpErr::BadPath) => Ok(None),
        Err(FtpErr::NoMemory) => Err(NoMemory),
    }
}

impl PartRooms {
    /// The length of the resource at a URL: over FTP by a dialogue up to the question for it, and else by a request for its
    /// first byte, which follows up to 20 redirects.
    pub fn probe<L: Links>(&mut self, alloc: Global, link: &mut L, url: &str) -> Result<u64, Loss>
        ensures probes { IsTrue L.tells
            → (used : List Exchange)
            × Gains (L.state link.old).exchanges (L.state link.new).exchanges used
            × MatchResult result
            (λ total. Probed url.now used (Told total))
            (TellsProbeLoss url.now used (L.faults link.new)) }
        ensures link { IfErr result (CountsLinkLoss (L.faults link.old) (L.faults link.new)) }
        ensures answered { IsTrue L.tells → (before : List Exchange)
            → KeepsAnswers before (L.state link.old) (L.state link.new) }
        // The next reader goes on over the connection only behind a reply that was read whole; else the link is closed.
        ensures may { IsTrue L.tells → RestsOn self.new.chain (L.state link.new) }
        ensures whole { IsTrue L.tells → RestsWhole self.new.chain (L.state link.new).exchanges }
        ensures closed { OnOk result (IsTrue L.tells → LetsGo self.new.chain (L.state link.new)) }
        // A URL that can't be asked is refused without a call of the link.
        ensures untouched { (IsUsable url.now → ⊥) → link.new ≡ link.old }
        ensures known { IfErr result IsKnown }
        ensures later { L.faults link.old ≤ L.faults link.new }
    {
        let Ok(place) = place_of(alloc, url) else {
            self.chain.leave_connection();
            return Err(Loss::NoMemory);
        };
        match place {
            Some(place) => {
                self.chain.leave_connection();
                ftp_link::probe(alloc, link, &place, &mut self.ftp)
            }
            None => request_chain::probe(alloc, link, url, &mut self.chain),
        }
    }
}
