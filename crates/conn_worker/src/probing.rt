// A probe of the length of a payload.
ghost use Rattle.std.specs.Prelude.{◌≡◌};
ghost use Rattle.conn_worker.specs.Hands.{link_at};
ghost use Rattle.conn_worker.specs.Holding.{IsProbedInHand, probe_end, probe_lost};

use crate::hands::{ProbeEnd, ProbeInHand};
use fetch_session::{FetchRoom, Loss, probe};
use link_source::Links;
use std::alloc::Global;

/// What the loss of a probe comes to.
fn end_of_loss(loss: Loss) -> ProbeEnd
    ensures { result ≡ probe_lost loss }
{
    match loss.mark() {
        Some(mark) => ProbeEnd::Missed { loss, mark },
        None => ProbeEnd::Lacking,
    }
}

/// What a probe comes to.
fn end_of_probe(came: Result<u64, Loss>) -> ProbeEnd
    ensures { result ≡ probe_end came }
{
    match came {
        Ok(total) => ProbeEnd::Told { total },
        Err(loss) => end_of_loss(loss),
    }
}

/// The mirror is asked how long the resource at a URL is.
pub(crate) fn ask_length<L: Links>(
    alloc: Global,
    link: &mut L,
    claim: u64,
    url: &str,
    mut room: FetchRoom,
) -> ProbeInHand
    ensures { IsProbedInHand L.tells claim url.now (link_at L.Links link.old)
        (link_at L.Links link.new) result }
{
    let came = probe(alloc, link, url, &mut room);
    ProbeInHand {
        claim,
        end: end_of_probe(came),
        room,
    }
}
