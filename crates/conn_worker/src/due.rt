// The turn that is due.
ghost use Rattle.std.specs.Prelude.{◌≡◌};
ghost use Rattle.conn_worker.specs.Holding.{EndsAs, MakesFetchTurn, MakesProbeTurn, MakesTurn, StaysWaiting, WaitsWithRoom};
ghost use Rattle.conn_worker.specs.Table.{end_of_gain, end_of_probe, probe_op};
ghost use Rattle.engine_turns.specs.RunTurns.{IsLawfulOperation};

use crate::ends::WorkEnd;
use crate::hands::{FetchInHand, Gain, InHand, ProbeEnd, ProbeInHand, SealInHand, Waiting};
use dl_kinds::{Blob, Moment};
use engine_turns::{MAX_ALLOWANCE, Operation};
use fetch_session::FetchRoom;

impl FetchInHand {
    /// Blocks that are ready are delivered, a loss is told, and otherwise more bytes are asked for.
    fn due(self, worker: u32, now: Moment) -> (Operation, Waiting)
        ensures made { MakesFetchTurn worker now self result.0 result.1 }
        ensures lawful { IsLawfulOperation result.0 }
    {
        let FetchInHand { open_fetch, gain } = self;
        let claim = open_fetch.claim;
        match gain {
            Gain::Ready { run, bytes, last } => {
                let op = Operation::Deliver {
                    claim,
                    run,
                    bytes,
                    now,
                };
                (op, Waiting::Delivers { open_fetch, last })
            }
            Gain::Lost { loss: _, mark } => {
                let op = Operation::Lose { claim, mark, now };
                (op, Waiting::Free(open_fetch.fetch.into_room()))
            }
            Gain::Open => {
                let op = Operation::More {
                    claim,
                    want: MAX_ALLOWANCE,
                    now,
                };
                (op, Waiting::Asks(open_fetch))
            }
            Gain::Starved => {
                let op = Operation::Next { worker, now };
                (op, Waiting::Free(open_fetch.fetch.into_room()))
            }
        }
    }
}

/// The length that was told is handed on, and a loss is told.
fn probe_op(worker: u32, claim: u64, now: Moment, end: ProbeEnd) -> Operation
    ensures is { result ≡ probe_op worker claim now end }
    ensures lawful { IsLawfulOperation result }
{
    match end {
        ProbeEnd::Told { total } => Operation::Sized { claim, total, now },
        ProbeEnd::Missed { loss: _, mark } => Operation::Lose { claim, mark, now },
        ProbeEnd::Lacking => Operation::Next { worker, now },
    }
}

impl ProbeInHand {
    /// What it came to is told.
    fn due(self, worker: u32, now: Moment) -> (Operation, Waiting)
        ensures made { MakesProbeTurn worker now self result.0 result.1 }
        ensures lawful { IsLawfulOperation result.0 }
    {
        let ProbeInHand { claim, end, room } = self;
        (probe_op(worker, claim, now, end), Waiting::Free(room))
    }
}

/// How a step ends the work, if it does.
fn end_of_gain(gain: &Gain) -> Option<WorkEnd>
    ensures { result ≡ end_of_gain gain.now }
{
    match gain {
        Gain::Starved => Some(WorkEnd::NoMemory),
        _ => None,
    }
}

/// How a probe ends the work, if it does.
fn end_of_probe(end: &ProbeEnd) -> Option<WorkEnd>
    ensures { result ≡ end_of_probe end.now }
{
    match end {
        ProbeEnd::Lacking => Some(WorkEnd::NoMemory),
        _ => None,
    }
}

impl InHand {
    /// The turn that is due, and what stays with the worker.
    pub(crate) fn due(self, worker: u32, now: Moment) -> (Operation, Waiting)
        ensures made { MakesTurn worker now self result.0 result.1 }
        ensures lawful { IsLawfulOperation result.0 }
    {
        match self {
            InHand::Nothing(room) => (Operation::Next { worker, now }, Waiting::WantsWork(room)),
            InHand::Fetches(fetch) => fetch.due(worker, now),
            InHand::Probes(probe) => probe.due(worker, now),
            InHand::Seals(SealInHand { gid, sealed, room }) => {
                (Operation::Seal { gid, sealed, now }, Waiting::Free(room))
            }
        }
    }

    /// How what came ends the work, if it does.
    pub(crate) fn end(&self) -> Option<WorkEnd>
        ensures { EndsAs self.now result }
    {
        match self {
            InHand::Nothing(_) => None,
            InHand::Fetches(fetch) => end_of_gain(&fetch.gain),
            InHand::Probes(probe) => end_of_probe(&probe.end),
            InHand::Seals(_) => None,
        }
    }
}

impl Waiting {
    /// The room of the fetches to come.
    pub(crate) fn into_room(self) -> FetchRoom
        ensures { WaitsWithRoom self result }
    {
        match self {
            Waiting::Free(room) => room,
            Waiting::WantsWork(room) => room,
            Waiting::Delivers { open_fetch, .. } => open_fetch.fetch.into_room(),
            Waiting::Asks(open_fetch) => open_fetch.fetch.into_room(),
        }
    }

    /// A buffer of blocks that were delivered is the fetch's again.
    pub(crate) fn with_buffer(self, buffer: Blob) -> Waiting
        ensures { StaysWaiting self result }
    {
        match self {
            Waiting::Delivers {
                mut open_fetch,
                last,
            } => {
                open_fetch.fetch.give_back(buffer);
                Waiting::Delivers { open_fetch, last }
            }
            waiting => waiting,
        }
    }
}
