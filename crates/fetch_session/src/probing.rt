// How long a resource is.
ghost use Rattle.std.specs.Prelude.{◌≡◌, ◌≤◌, List, ℕ, IsTrue, OnOk, IfErr, MatchResult};
ghost use Rattle.fetch_session.specs.Fetches.{IsKeptBehindWhole, IsLeftTo, MayBegin};
ghost use Rattle.link_source.specs.Endpoint.{IsUsable};
ghost use Rattle.link_source.specs.Exchanges.{Exchange};
ghost use Rattle.reply_reader.specs.Losses.{IsKnown};
ghost use Rattle.request_chain.specs.Answered.{KeepsAnswers};
ghost use Rattle.request_chain.specs.Links.{CountsLinkLoss};
ghost use Rattle.request_chain.specs.Chains.{Gains};
ghost use Rattle.request_chain.specs.Probes.{Told};
ghost use Rattle.part_fetches.specs.Probes.{Probed, TellsProbeLoss};

use crate::room::FetchRoom;
use link_source::Links;
use reply_reader::Loss;
use std::alloc::Global;

/// The length of the resource at a URL, which is asked for its first byte, and wherever it was moved to, 20 times at
/// most. No more of it is read than that byte, which is received so that its connection can take the next request.
pub fn probe<L: Links>(
    alloc: Global,
    link: &mut L,
    url: &str,
    room: &mut FetchRoom,
) -> Result<u64, Loss>
    ensures probes { IsTrue L.tells
        → (used : List Exchange)
        × Gains (L.state link.old).exchanges (L.state link.new).exchanges used
        × MatchResult result
        (λ total. Probed url.now used (Told total))
        (TellsProbeLoss url.now used (L.faults link.new)) }
    ensures link { IfErr result (CountsLinkLoss (L.faults link.old) (L.faults link.new)) }
    ensures answered { IsTrue L.tells → (before : List Exchange)
        → KeepsAnswers before (L.state link.old) (L.state link.new) }
    // The next fetch goes on over the connection only behind a reply that was read whole; else the link is closed.
    ensures may { IsTrue L.tells → MayBegin room.new (L.state link.new) }
    ensures whole { IsTrue L.tells → IsKeptBehindWhole room.new (L.state link.new).exchanges }
    ensures closed { OnOk result (IsTrue L.tells → IsLeftTo room.new (L.state link.new)) }
    // A URL that is no `http` URL is refused without a call of the link.
    ensures untouched { (IsUsable url.now → ⊥) → link.new ≡ link.old }
    ensures known { IfErr result IsKnown }
    ensures later { L.faults link.old ≤ L.faults link.new }
{
    room.rooms.probe(alloc, link, url)
}
