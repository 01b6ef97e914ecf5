// What follows the answer of a turn.
ghost use Rattle.std.specs.Prelude.{◌≡◌, ◌≤◌};
ghost use Rattle.conn_worker.specs.Hands.{Fetching, Hand, allowing, link_at};
ghost use Rattle.conn_worker.specs.Holding.{HasOutcome, IsAskingMore, IsDelivered, IsRoomFor, IsWaiting, MayStepOn};
ghost use Rattle.conn_worker.specs.Sound.{IsSoundAnswer, IsSoundGrant, NoGrant};
ghost use Rattle.conn_worker.specs.Table.{FollowsAnswer, FollowsDelivery, FollowsGrant, FollowsKept, FollowsMore, HangsUp, StepsOn, goes_on_by};
ghost use Rattle.conn_worker.specs.declared.hands.Gain.TheVariants.{Open};
ghost use Rattle.engine_turns.specs.declared.operations.Grant.TheVariants.{Fetch as FetchOf};

use crate::fetching::step;
use crate::hands::{FetchInHand, Gain, InHand, OpenFetch, SealInHand, Waiting};
use crate::parts::Part;
use crate::probing::ask_length;
use engine_turns::{FetchGrant, Grant, Said};
use fetch_session::{Fetch, FetchRoom};
use link_source::Links;
use std::alloc::Global;
use verify_piece::Sealed;

/// A fetch begins, and its first step is made.
fn begin<L: Links>(
    alloc: Global,
    link: &mut L,
    grant: FetchGrant,
    room: FetchRoom,
    part: Part,
) -> InHand
    requires room { IsRoomFor L.tells room (link_at L.Links link.old) }
    requires sound { IsSoundGrant (FetchOf grant) }
    ensures { HasOutcome L.tells (FollowsGrant L.tells (FetchOf grant) (link_at L.Links link.old))
        result (link_at L.Links link.new) }
{
    let FetchGrant {
        claim,
        gid: _,
        job,
        allow,
    } = grant;
    let open_fetch = OpenFetch {
        claim,
        fetch: Fetch::begin(job, room),
        left: allow,
    };
    InHand::Fetches(step(alloc, link, open_fetch, part))
}

/// Nothing is in hand, and a connection that stood open would keep others from the host.
fn hang_up<L: Links>(link: &mut L, room: FetchRoom) -> InHand
    ensures { HasOutcome L.tells (HangsUp L.tells (link_at L.Links link.old))
        result (link_at L.Links link.new) }
{
    InHand::Nothing(room.hang_up(link))
}

/// What was granted is done.
fn take_grant<L: Links>(
    alloc: Global,
    link: &mut L,
    grant: Grant,
    room: FetchRoom,
    part: Part,
) -> InHand
    requires room { IsRoomFor L.tells room (link_at L.Links link.old) }
    requires sound { IsSoundGrant grant }
    ensures { HasOutcome L.tells (FollowsGrant L.tells grant (link_at L.Links link.old))
        result (link_at L.Links link.new) }
{
    match grant {
        Grant::Fetch(granted) => begin(alloc, link, granted, room, part),
        Grant::Probe { claim, gid: _, url } => {
            InHand::Probes(ask_length(alloc, link, claim, url.as_str(), room))
        }
        Grant::Hash { gid, piece, bytes } => InHand::Seals(SealInHand {
            gid,
            sealed: Sealed::of(piece, bytes),
            room,
        }),
    }
}

/// Another step of a fetch is made where bytes are left.
fn go_on<L: Links>(alloc: Global, link: &mut L, open_fetch: OpenFetch, part: Part) -> InHand
    requires { (f : Fetching) × MayStepOn L.tells open_fetch f (link_at L.Links link.old) }
    ensures { (f : Fetching) → MayStepOn L.tells open_fetch f (link_at L.Links link.old)
        → f.gain ≡ Open
        → HasOutcome L.tells (goes_on_by L.tells f f.left (link_at L.Links link.old))
        result (link_at L.Links link.new) }
{
    if open_fetch.left == 0 {
        return InHand::Fetches(FetchInHand {
            open_fetch,
            gain: Gain::Open,
        });
    }
    InHand::Fetches(step(alloc, link, open_fetch, part))
}

/// Blocks were counted. The last ones end the fetch.
fn after_kept<L: Links>(
    alloc: Global,
    link: &mut L,
    open_fetch: OpenFetch,
    last: bool,
    part: Part,
) -> InHand
    requires { (f : Fetching) × IsDelivered L.tells open_fetch last f (link_at L.Links link.old) }
    ensures { (f : Fetching)
        → IsDelivered L.tells open_fetch last f (link_at L.Links link.old)
        → HasOutcome L.tells (FollowsKept L.tells f last (link_at L.Links link.old))
        result (link_at L.Links link.new) }
{
    if last {
        return InHand::Nothing(open_fetch.fetch.into_room());
    }
    go_on(alloc, link, open_fetch, part)
}

/// What follows where blocks were delivered.
fn after_delivery<L: Links>(
    alloc: Global,
    link: &mut L,
    open_fetch: OpenFetch,
    last: bool,
    said: &Said,
    part: Part,
) -> InHand
    requires { (f : Fetching) × IsDelivered L.tells open_fetch last f (link_at L.Links link.old) }
    ensures { (f : Fetching)
        → IsDelivered L.tells open_fetch last f (link_at L.Links link.old)
        → HasOutcome L.tells (FollowsDelivery L.tells f last said.now (link_at L.Links link.old))
        result (link_at L.Links link.new) }
{
    match said {
        Said::Kept { .. } => after_kept(alloc, link, open_fetch, last, part),
        _ => hang_up(link, open_fetch.fetch.into_room()),
    }
}

/// More bytes may be taken, and a step is made.
fn allow<L: Links>(
    alloc: Global,
    link: &mut L,
    mut open_fetch: OpenFetch,
    bytes: u32,
    part: Part,
) -> InHand
    requires asks { (f : Fetching) × IsAskingMore L.tells open_fetch f (link_at L.Links link.old) }
    requires some { 1 ≤ bytes }
    ensures { (f : Fetching) → IsAskingMore L.tells open_fetch f (link_at L.Links link.old)
        → HasOutcome L.tells (StepsOn L.tells (allowing f bytes)) result (link_at L.Links link.new) }
{
    open_fetch.left = bytes;
    InHand::Fetches(step(alloc, link, open_fetch, part))
}

/// What follows where more bytes were asked for.
fn after_more<L: Links>(
    alloc: Global,
    link: &mut L,
    open_fetch: OpenFetch,
    said: &Said,
    part: Part,
) -> InHand
    requires asks { (f : Fetching) × IsAskingMore L.tells open_fetch f (link_at L.Links link.old) }
    requires sound { IsSoundAnswer said.now }
    ensures { (f : Fetching) → IsAskingMore L.tells open_fetch f (link_at L.Links link.old)
        → HasOutcome L.tells (FollowsMore L.tells f said.now (link_at L.Links link.old))
        result (link_at L.Links link.new) }
{
    match said {
        Said::Allow { bytes } => allow(alloc, link, open_fetch, *bytes, part),
        Said::Hold { .. } => InHand::Fetches(FetchInHand {
            open_fetch,
            gain: Gain::Open,
        }),
        _ => hang_up(link, open_fetch.fetch.into_room()),
    }
}

/// What follows where nothing was granted.
fn carry_on<L: Links>(
    alloc: Global,
    link: &mut L,
    waiting: Waiting,
    said: &Said,
    part: Part,
) -> InHand
    requires waits { (hand : Hand) × IsWaiting L.tells waiting hand (link_at L.Links link.old) }
    requires sound { IsSoundAnswer said.now }
    requires none { NoGrant said.now }
    ensures { (hand : Hand) → IsWaiting L.tells waiting hand (link_at L.Links link.old)
        → HasOutcome L.tells (FollowsAnswer L.tells hand said.now (link_at L.Links link.old))
        result (link_at L.Links link.new) }
{
    match waiting {
        Waiting::Free(room) => InHand::Nothing(room),
        Waiting::WantsWork(room) => hang_up(link, room),
        Waiting::Delivers { open_fetch, last } => {
            after_delivery(alloc, link, open_fetch, last, said, part)
        }
        Waiting::Asks(open_fetch) => after_more(alloc, link, open_fetch, said, part),
    }
}

/// What the answer of a turn asks is done.
pub(crate) fn follow<L: Links>(
    alloc: Global,
    link: &mut L,
    waiting: Waiting,
    said: Said,
    part: Part,
) -> InHand
    requires waits { (hand : Hand) × IsWaiting L.tells waiting hand (link_at L.Links link.old) }
    requires sound { IsSoundAnswer said }
    ensures { (hand : Hand) → IsWaiting L.tells waiting hand (link_at L.Links link.old)
        → HasOutcome L.tells (FollowsAnswer L.tells hand said (link_at L.Links link.old))
        result (link_at L.Links link.new) }
{
    match said {
        Said::Grant(grant) => take_grant(alloc, link, grant, waiting.into_room(), part),
        other => carry_on(alloc, link, waiting, &other, part),
    }
}
