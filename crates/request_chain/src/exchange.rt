// One request, on a connection of its own.
ghost use Rattle.std.specs.Prelude.{◌≡◌, ◌⊎◌, ◌≤◌, ℕ, List, [], Ok, Some, true, false, IsTrue, IsFalse, IfOk, IfErr, OnOk};
ghost use Rattle.dl_kinds.specs.Counts.{Rose};
ghost use Rattle.reply_reader.specs.Losses.{IsKnown};
ghost use Rattle.reply_reader.specs.declared.loss.Loss.TheVariants.{Link, NoMemory};
ghost use Rattle.link_source.specs.Endpoint.{IsHttp};
ghost use Rattle.link_source.specs.Exchanges.{Exchange};
ghost use Rattle.request_chain.specs.Answered.{KeepsAnswers};
ghost use Rattle.request_chain.specs.Links.{CountsLinkLoss};
ghost use Rattle.request_chain.specs.Exchanges.{LeadsTo, request_for};
ghost use Rattle.request_chain.specs.Plans.{unusable};
ghost use Rattle.request_chain.specs.Rests.{IsOpenTo};
ghost use Rattle.request_chain.specs.Sending.{loss_by, IsOpened, IsUnopened};

use crate::room::Peer;
use dl_kinds::{Code, ExitStatus, IoErr};
use link_source::{EndErr, Endpoint, Links};
use range_http::{Asked, request};
use reply_reader::{Loss, replies_are_read_short};
use std::alloc::Global;

/// The loss by a link's error, which is told with the link's count.
pub fn link_loss<L: Links>(link: &L, error: IoErr) -> Loss
    ensures loss { result ≡ loss_by (L.faults link.now) error }
    ensures known { IsKnown result }
{
    match error {
        IoErr::Fault => Loss::Link {
            count: link.faults(),
        },
        IoErr::NoMemory => Loss::NoMemory,
    }
}

/// The endpoint of a URL, to which a reply of this status led.
fn endpoint(alloc: Global, url: &str, status: u16) -> Result<Endpoint, Loss>
    ensures leads { IfOk result (λ endpoint. LeadsTo url.now endpoint) }
    ensures lost { IfErr result (λ loss. (loss ≡ NoMemory)
        ⊎ ((loss ≡ unusable status) × (IsHttp url.now → ⊥))) }
    ensures known { IfErr result IsKnown }
{
    match Endpoint::of(alloc, url) {
        Ok(endpoint) => Ok(endpoint),
        Err(EndErr::NotUrl | EndErr::Scheme) => Err(Loss::Refused {
            status,
            code: Code::of(ExitStatus::HttpReply),
        }),
        Err(EndErr::NoMemory) => Err(Loss::NoMemory),
    }
}

fn request_for(alloc: Global, endpoint: &Endpoint, asked: &Asked) -> Result<Vec<u8>, Loss>
    ensures bytes { IfOk result (λ bytes. bytes.items ≡ request_for asked.now endpoint.now) }
    ensures lost { IfErr result (λ loss. loss ≡ NoMemory) }
    ensures known { IfErr result IsKnown }
{
    let Ok(host) = endpoint.host_field(alloc) else {
        return Err(Loss::NoMemory);
    };
    request(alloc, endpoint.target.as_str(), host.as_str(), asked).map_err(|_| Loss::NoMemory)
}

/// Sends the request for a range of the resource at a URL, on a new connection. The answer is where it leads.
pub(crate) fn send_request<L: Links>(
    alloc: Global,
    link: &mut L,
    url: &str,
    status: u16,
    asked: &Asked,
) -> Result<Peer, Loss>
    ensures sent { OnOk result (IsTrue L.tells
        → IsOpened url.now asked.now true (L.state link.old).exchanges
        (L.state link.new).exchanges) }
    ensures opened { IfOk result (λ peer. IsTrue L.tells
        → IsOpenTo (Some peer) (L.state link.new)) }
    ensures lost { IfErr result (λ loss. IsTrue L.tells → IsUnopened url.now status
        (L.state link.old).exchanges (L.state link.new).exchanges (L.faults link.new) loss) }
    ensures link { IfErr result (CountsLinkLoss (L.faults link.old) (L.faults link.new)) }
    ensures known { IfErr result IsKnown }
    ensures answered { IsTrue L.tells → (before : List Exchange)
        → KeepsAnswers before (L.state link.old) (L.state link.new) }
    ensures listens { OnOk result (IsTrue L.tells → (L.state link.new).listens ≡ true) }
    // A URL that is no `http` URL is refused without a call of the link.
    ensures usable { OnOk result (IsHttp url.now) }
    ensures untouched { (IsHttp url.now → ⊥) → link.new ≡ link.old }
    ensures later { L.faults link.old ≤ L.faults link.new }
{
    replies_are_read_short();
    let endpoint = endpoint(alloc, url, status)?;
    let request = request_for(alloc, &endpoint, asked)?;
    if let Err(error) = link.dial(endpoint.host.as_str(), endpoint.port) {
        return Err(link_loss(link, error));
    }
    match link.send(&request) {
        Ok(()) => Ok(Peer {
            host: endpoint.host,
            port: endpoint.port,
        }),
        Err(error) => Err(link_loss(link, error)),
    }
}

// Whether a peer is the endpoint's.
fn is_at(peer: &Peer, endpoint: &Endpoint) -> bool
    ensures { IsTrue result → (peer.now.host ≡ endpoint.now.host)
        × (peer.now.port ≡ endpoint.now.port) }
{
    peer.port == endpoint.port && peer.host.as_str() == endpoint.host.as_str()
}

/// Sends the request for a range of the resource at a URL over the connection that is open, where it leads there. The
/// answer is whether it was sent.
pub(crate) fn send_again<L: Links>(
    alloc: Global,
    link: &mut L,
    peer: &Peer,
    url: &str,
    status: u16,
    asked: &Asked,
) -> Result<bool, Loss>
    requires opened { IsTrue L.tells → IsOpenTo (Some peer.now) (L.state link.old) }
    ensures sent { IfOk result (λ sent. IsTrue sent → IsTrue L.tells → IsOpened url.now asked.now
        false (L.state link.old).exchanges (L.state link.new).exchanges) }
    ensures unsent { IfOk result (λ sent. IsFalse sent → IsTrue L.tells
        → L.state link.new ≡ L.state link.old) }
    ensures opened { OnOk result (IsTrue L.tells → IsOpenTo (Some peer.now) (L.state link.new)) }
    ensures lost { IfErr result (λ loss. IsTrue L.tells → IsUnopened url.now status
        (L.state link.old).exchanges (L.state link.new).exchanges (L.faults link.new) loss) }
    ensures own { IfErr result (λ loss. (count : ℕ) → loss ≡ Link count → ⊥) }
    ensures known { IfErr result IsKnown }
    ensures answered { IsTrue L.tells → (before : List Exchange)
        → KeepsAnswers before (L.state link.old) (L.state link.new) }
    ensures usable { OnOk result (IsHttp url.now) }
    ensures untouched { (IsHttp url.now → ⊥) → link.new ≡ link.old }
    ensures later { L.faults link.old ≤ L.faults link.new }
{
    replies_are_read_short();
    let place = endpoint(alloc, url, status)?;
    let again = request_for(alloc, &place, asked)?;
    if !is_at(peer, &place) {
        return Ok(false);
    }
    match link.send(&again) {
        Ok(()) => Ok(true),
        // A connection that was closed meanwhile is no loss.
        Err(IoErr::Fault) => Ok(false),
        Err(IoErr::NoMemory) => Err(Loss::NoMemory),
    }
}
