// How long a resource is.
ghost use Rattle.std.specs.Prelude.{◌≡◌, ◌≢◌, ◌⊎◌, ◌≤◌, ◌<◌, ◌+◌, ◌-◌, [], List, ℕ, true, false, Ok, Some, None, IsTrue, OnOk, IfOk, IfErr, IfSome, MatchResult, codes, length};
ghost use Rattle.dl_kinds.specs.Counts.{Rose};
ghost use Rattle.link_source.specs.Endpoint.{IsHttp};
ghost use Rattle.link_source.specs.Exchanges.{Exchange};
ghost use Rattle.http_heads.specs.Fields.{sole};
ghost use Rattle.range_http.specs.Fields.{values_of};
ghost use Rattle.range_http.specs.Verdict.{verdict_of};
ghost use Rattle.range_http.specs.declared.verdict.Verdict.TheVariants.{Moved as HasMoved};
ghost use Rattle.reply_reader.specs.Losses.{IsKnown};
ghost use Rattle.reply_reader.specs.Heads.{IsAtHead, IsHeadDue, HasNoFinalHead};
ghost use Rattle.reply_reader.specs.declared.loss.Loss.TheVariants.{Link, NoMemory, BadReply};
ghost use Rattle.request_chain.specs.Answered.{KeepsAnswers};
ghost use Rattle.request_chain.specs.Links.{CountsLinkLoss};
ghost use Rattle.request_chain.specs.Chains.{Gains};
ghost use Rattle.request_chain.specs.Contents.{IsOwn};
ghost use Rattle.request_chain.specs.Plans.{unusable};
ghost use Rattle.request_chain.specs.Probes.{Told, Lost, probe_asked, probe_by, Probed, TellsProbeLoss};
ghost use Rattle.request_chain.specs.Rests.{IsOpenTo, LetsGo, RestsOn, RestsWhole};
ghost use Rattle.request_chain.specs.Searches.{AsksForHead, Awaits, HasHeadAnd, HeadLost};
ghost use Rattle.request_chain.specs.Redirects.{moved_to};
ghost use Rattle.request_chain.specs.Sending.{IsOpened};

use crate::course::{Moved, REDIRECT_LIMIT};
use crate::exchange::{link_loss, send_request};
use crate::inbox::Inbox;
use crate::keeping::let_go;
use crate::redirect::target;
use crate::room::ChainRoom;
use crate::stage::check_head;
use dl_kinds::{Code, ExitStatus, Text};
use http_heads::{Head, MAX_HEAD_BYTES};
use link_source::Links;
use range_http::{Asked, Verdict, classify};
use reply_reader::{
    HeadReader, HeadsRead, INTERIM_LIMIT, Loss, final_heads_are_one_and_stay,
    replies_are_read_short,
};
use std::alloc::Global;

/// The most bytes of the heads of a reply, interim ones and the final one.
const MAX_HEADS: u32 = (INTERIM_LIMIT as u32 + 1) * MAX_HEAD_BYTES as u32;

// What a head tells: a length, or that the resource was moved.
fn told_length(head: &Head) -> Result<Option<u64>, Loss>
    ensures length { IfOk result (λ told. IfSome told
        (λ total. probe_by head.now (verdict_of head.now probe_asked) ≡ Told total)) }
    ensures moved { result ≡ Ok None → verdict_of head.now probe_asked ≡ HasMoved }
    ensures lost { IfErr result (λ loss. IsOwn loss
        × (probe_by head.now (verdict_of head.now probe_asked) ≡ Lost loss)) }
    ensures known { IfErr result IsKnown }
{
    let asked = Asked {
        first: 0,
        last: 0,
        total: None,
    };
    match classify(head, &asked) {
        Verdict::Part {
            total: Some(total),
            ..
        } => Ok(Some(total)),
        Verdict::Whole {
            total: Some(total),
            ..
        } => Ok(Some(total)),
        Verdict::Part { total: None, .. } | Verdict::Whole { total: None, .. } => Err(
            Loss::Refused {
                status: head.status,
                code: Code::of(ExitStatus::HttpReply),
            },
        ),
        Verdict::Empty => Ok(Some(0)),
        Verdict::WrongLength { told } => Ok(Some(told)),
        Verdict::Moved => Ok(None),
        Verdict::NotFound => Err(Loss::NotFound),
        Verdict::Refused { code } => Err(Loss::Refused {
            status: head.status,
            code,
        }),
    }
}

// Receives more of the heads.
fn receive<L: Links>(
    alloc: Global,
    link: &mut L,
    inbox: &mut Inbox,
    reader: &HeadReader,
    most: u32,
) -> Result<u32, Loss>
    requires some { 0 < most }
    requires listens { IsTrue L.tells → (L.state link.old).listens ≡ true }
    ensures receives { IsTrue L.tells
        → (url : List ℕ) (before : List Exchange)
        → Awaits url before (L.state link.old).exchanges most [] reader.now
        → MatchResult result
        (λ count. Awaits url before (L.state link.new).exchanges (most - count) inbox.new reader.now)
        (HeadLost url before (L.state link.new).exchanges (L.faults link.new)) }
    ensures some { IfOk result (λ count. (0 < count) × (count ≤ most)) }
    ensures at { IsTrue L.tells → (L.state link.new).peer ≡ (L.state link.old).peer }
    ensures listens { IsTrue L.tells → (L.state link.new).listens ≡ true }
    ensures answered { IsTrue L.tells → (url : List ℕ) (others before : List Exchange)
        → Awaits url others (L.state link.old).exchanges most [] reader.now
        → length before ≤ length others
        → KeepsAnswers before (L.state link.old) (L.state link.new) }
    ensures link { IfErr result (CountsLinkLoss (L.faults link.old) (L.faults link.new)) }
    ensures known { IfErr result IsKnown }
    ensures later { L.faults link.old ≤ L.faults link.new }
{
    replies_are_read_short();
    match inbox.refill(link, most.min(reader.most_asked())) {
        Ok(0) => {
            check_head(alloc, reader)?;
            Err(Loss::Short { got: 0 })
        }
        Ok(count) => Ok(count),
        Err(error) => {
            check_head(alloc, reader)?;
            Err(link_loss(link, error))
        }
    }
}

// Receives the heads of a reply, and gives the final one.
fn receive_head<L: Links>(alloc: Global, link: &mut L, inbox: &mut Inbox) -> Result<Head, Loss>
    requires { IsTrue L.tells → (L.state link.old).listens ≡ true }
    ensures heads { IsTrue L.tells
        → (url : List ℕ) (before : List Exchange)
        → IsOpened url probe_asked true before (L.state link.old).exchanges
        → MatchResult result (HasHeadAnd url before (L.state link.new).exchanges inbox.new)
        (HeadLost url before (L.state link.new).exchanges (L.faults link.new)) }
    ensures answered { IsTrue L.tells → (url : List ℕ) (others before : List Exchange)
        → IsOpened url probe_asked true others (L.state link.old).exchanges
        → length before ≤ length others
        → KeepsAnswers before (L.state link.old) (L.state link.new) }
    ensures at { IsTrue L.tells → (L.state link.new).peer ≡ (L.state link.old).peer }
    ensures listens { IsTrue L.tells → (L.state link.new).listens ≡ true }
    ensures link { IfErr result (CountsLinkLoss (L.faults link.old) (L.faults link.new)) }
    ensures known { IfErr result IsKnown }
    ensures later { L.faults link.old ≤ L.faults link.new }
{
    let mut reader = HeadReader::new(alloc);
    let mut left = MAX_HEADS;
    'turns: while left > 0 {
        let count = receive(alloc, link, inbox, &reader, left)?;
        left -= count;
        match inbox.read_head(alloc, &mut reader) {
            HeadsRead::Whole { head, .. } => return Ok(head),
            HeadsRead::More => {}
            HeadsRead::Bad => return Err(Loss::BadReply),
            HeadsRead::NoMemory => return Err(Loss::NoMemory),
        }
    }
    // So many bytes hold an interim head too many.
    Err(Loss::BadReply)
}

// Asks for the first byte, and gives the final head of the reply.
fn ask<L: Links>(
    alloc: Global,
    link: &mut L,
    room: &mut ChainRoom,
    hop: &Moved,
) -> Result<Head, Loss>
    ensures asks { IsTrue L.tells → AsksForHead hop.now.url hop.now.status
        (L.state link.old).exchanges result (L.state link.new).exchanges room.new.inbox (L.faults link.new) }
    ensures opened { OnOk result (IsTrue L.tells → IsOpenTo room.new.peer (L.state link.new)) }
    ensures tired { room.new.rests ≡ room.old.rests }
    ensures answered { IsTrue L.tells → (before : List Exchange)
        → KeepsAnswers before (L.state link.old) (L.state link.new) }
    ensures link { IfErr result (CountsLinkLoss (L.faults link.old) (L.faults link.new)) }
    ensures known { IfErr result IsKnown }
    ensures usable { OnOk result (IsHttp hop.now.url) }
    ensures untouched { (IsHttp hop.now.url → ⊥) → link.new ≡ link.old }
    ensures later { L.faults link.old ≤ L.faults link.new }
{
    let asked = Asked {
        first: 0,
        last: 0,
        total: None,
    };
    let peer = send_request(alloc, link, hop.url.as_str(), hop.status, &asked)?;
    room.peer = Some(peer);
    receive_head(alloc, link, &mut room.inbox)
}

// Where the head says that the resource is.
fn next_hop(alloc: Global, url: &str, head: &Head) -> Result<Moved, Loss>
    ensures leads { (text : List ℕ) → sole (values_of head.now (codes "location")) ≡ Some text
        → MatchResult result
        (λ hop. (moved_to url.now text ≡ Some hop.url) × (hop.status ≡ head.now.status))
        (λ loss. (loss ≡ NoMemory) ⊎ ((loss ≡ unusable head.now.status)
        × (moved_to url.now text ≡ None))) }
    ensures own { IfErr result (λ loss. (count : ℕ) → loss ≡ Link count → ⊥) }
    ensures known { IfErr result IsKnown }
{
    match target(alloc, url, head) {
        Ok(Some(url)) => Ok(Moved {
            url,
            status: head.status,
        }),
        Ok(None) => Err(Loss::Refused {
            status: head.status,
            code: Code::of(ExitStatus::HttpReply),
        }),
        Err(_) => Err(Loss::NoMemory),
    }
}

/// The length of a resource, by asking for its first byte, wherever it is moved to. Each request goes out on a connection
/// of its own; the last one is kept for a chain with this room, where its reply is read whole.
pub fn probe<L: Links>(
    alloc: Global,
    link: &mut L,
    url: &str,
    room: &mut ChainRoom,
) -> Result<u64, Loss>
    ensures probes { IsTrue L.tells
        → (used : List Exchange)
        × Gains (L.state link.old).exchanges (L.state link.new).exchanges used
        × MatchResult result
        (λ total. Probed url.now used (Told total))
        (TellsProbeLoss url.now used (L.faults link.new)) }
    ensures answered { IsTrue L.tells → (before : List Exchange)
        → KeepsAnswers before (L.state link.old) (L.state link.new) }
    ensures link { IfErr result (CountsLinkLoss (L.faults link.old) (L.faults link.new)) }
    ensures known { IfErr result IsKnown }
    // The connection is kept only behind a reply that was read whole, and else the link is closed.
    ensures rests { IsTrue L.tells → RestsOn room.new (L.state link.new) }
    ensures whole { IsTrue L.tells → RestsWhole room.new (L.state link.new).exchanges }
    ensures closed { OnOk result (IsTrue L.tells → LetsGo room.new (L.state link.new)) }
    // A URL that is no `http` URL is refused without a call of the link.
    ensures untouched { (IsHttp url.now → ⊥) → link.new ≡ link.old }
    ensures later { L.faults link.old ≤ L.faults link.new }
{
    final_heads_are_one_and_stay();
    room.rests = false;
    let Ok(url) = Text::of(alloc, url) else {
        return Err(Loss::NoMemory);
    };
    let mut hop = Moved { url, status: 0 };
    let mut redirects = 0;
    'turns: loop {
        let head = ask(alloc, link, room, &hop)?;
        if let Some(total) = told_length(&head)? {
            let_go(link, room, &head);
            return Ok(total);
        }
        if redirects >= REDIRECT_LIMIT {
            return Err(Loss::Redirects);
        }
        hop = next_hop(alloc, hop.url.as_str(), &head)?;
        redirects += 1;
    }
}
