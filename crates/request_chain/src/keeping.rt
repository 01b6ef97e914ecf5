// Whether the connection of a probe is kept.
ghost use Rattle.std.specs.Prelude.{◌≡◌, ◌≤◌, List, ℕ, true, IsTrue, length};
ghost use Rattle.link_source.specs.Exchanges.{Exchange};
ghost use Rattle.range_http.specs.declared.framing.Framing.TheVariants.{Length};
ghost use Rattle.http_heads.specs.declared.head.Head.{Head};
ghost use Rattle.request_chain.specs.Answered.{KeepsAnswers};
ghost use Rattle.request_chain.specs.Contents.{EndsAt};
ghost use Rattle.request_chain.specs.Probes.{probe_asked};
ghost use Rattle.request_chain.specs.Rests.{IsOpenTo, LetsGo, RestsOn, RestsWhole, TopIsWhole};
ghost use Rattle.request_chain.specs.Searches.{HasHead, HasHeadAnd};

use crate::inbox::Inbox;
use crate::room::ChainRoom;
use http_heads::Head;
use link_source::Links;
use range_http::{Asked, Framing, Verdict, classify, persists};
use reply_reader::final_heads_are_one_and_stay;

fn is_byte(framing: Framing) -> bool
    ensures { IsTrue result → framing ≡ Length 1 }
{
    framing == Framing::Length(1)
}

// Whether the body of a reply to a probe is the one byte that was asked for, and the connection persists behind it.
fn ends_in_byte(head: &Head) -> bool
    ensures { IsTrue result → EndsAt probe_asked head.now 1 }
{
    let asked = Asked {
        first: 0,
        last: 0,
        total: None,
    };
    match classify(head, &asked) {
        Verdict::Part { framing, .. } => is_byte(framing) && persists(head),
        Verdict::Whole { framing, .. } => is_byte(framing) && persists(head),
        _ => false,
    }
}

// Whether one byte waits behind the head, and nothing more, or comes next.
fn receive_byte<L: Links>(link: &mut L, inbox: &mut Inbox) -> bool
    requires { IsTrue L.tells → (L.state link.old).listens ≡ true }
    ensures has { IsTrue L.tells → (url : List ℕ) (before : List Exchange) (head : Head)
        → HasHeadAnd url before (L.state link.old).exchanges inbox.old head
        → HasHead url before (L.state link.new).exchanges head }
    ensures byte { IsTrue result → IsTrue L.tells
        → (url : List ℕ) (before : List Exchange) (head : Head)
        → HasHeadAnd url before (L.state link.old).exchanges inbox.old head
        → EndsAt probe_asked head 1 → TopIsWhole (L.state link.new).exchanges }
    ensures answered { IsTrue L.tells
        → (url : List ℕ) (others before : List Exchange) (head : Head)
        → HasHeadAnd url others (L.state link.old).exchanges inbox.old head
        → EndsAt probe_asked head 1 → length before ≤ length others
        → KeepsAnswers before (L.state link.old) (L.state link.new) }
    ensures at { IsTrue L.tells → (L.state link.new).peer ≡ (L.state link.old).peer }
    ensures listens { IsTrue L.tells → (L.state link.new).listens ≡ true }
    ensures later { L.faults link.old ≤ L.faults link.new }
{
    final_heads_are_one_and_stay();
    if !inbox.is_empty() {
        return inbox.waiting().len() == 1;
    }
    match inbox.refill(link, 1) {
        Ok(count) => count == 1,
        Err(_) => false,
    }
}

// Whether the reply was read whole, so that its connection may take another request.
fn reads_whole<L: Links>(link: &mut L, inbox: &mut Inbox, head: &Head) -> bool
    requires { IsTrue L.tells → (L.state link.old).listens ≡ true }
    ensures has { IsTrue L.tells → (url : List ℕ) (before : List Exchange)
        → HasHeadAnd url before (L.state link.old).exchanges inbox.old head.now
        → HasHead url before (L.state link.new).exchanges head.now }
    ensures whole { IsTrue result → IsTrue L.tells → (url : List ℕ) (before : List Exchange)
        → HasHeadAnd url before (L.state link.old).exchanges inbox.old head.now
        → TopIsWhole (L.state link.new).exchanges }
    ensures answered { IsTrue L.tells → (url : List ℕ) (others before : List Exchange)
        → HasHeadAnd url others (L.state link.old).exchanges inbox.old head.now
        → length before ≤ length others
        → KeepsAnswers before (L.state link.old) (L.state link.new) }
    ensures at { IsTrue L.tells → (L.state link.new).peer ≡ (L.state link.old).peer }
    ensures listens { IsTrue L.tells → (L.state link.new).listens ≡ true }
    ensures later { L.faults link.old ≤ L.faults link.new }
{
    if !ends_in_byte(head) {
        return false;
    }
    receive_byte(link, inbox)
}

/// Lets the link of a probe go whose length is told: its connection is kept behind a reply of just the byte that was
/// asked for, and the link is hung up behind any other.
pub(crate) fn let_go<L: Links>(link: &mut L, room: &mut ChainRoom, head: &Head)
    requires { IsTrue L.tells → IsOpenTo room.old.peer (L.state link.old) }
    ensures has { IsTrue L.tells → (url : List ℕ) (before : List Exchange)
        → HasHeadAnd url before (L.state link.old).exchanges room.old.inbox head.now
        → HasHead url before (L.state link.new).exchanges head.now }
    ensures whole { IsTrue L.tells → (url : List ℕ) (before : List Exchange)
        → HasHeadAnd url before (L.state link.old).exchanges room.old.inbox head.now
        → RestsWhole room.new (L.state link.new).exchanges }
    ensures rests { IsTrue L.tells → RestsOn room.new (L.state link.new) }
    ensures closed { IsTrue L.tells → LetsGo room.new (L.state link.new) }
    ensures answered { IsTrue L.tells → (url : List ℕ) (others before : List Exchange)
        → HasHeadAnd url others (L.state link.old).exchanges room.old.inbox head.now
        → length before ≤ length others
        → KeepsAnswers before (L.state link.old) (L.state link.new) }
    ensures later { L.faults link.old ≤ L.faults link.new }
{
    let whole = reads_whole(link, &mut room.inbox, head);
    room.rests = whole;
    if !whole {
        link.hang_up();
    }
}
