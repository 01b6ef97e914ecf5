// Calls, and doors.
ghost use Rattle.std.specs.Prelude.{◌≡◌, ◌∷◌, [], IfNone, IfOk, IfSome, IsTrue, OnErr, OnOk, false, length, max, true};
ghost use Rattle.std.specs.Option.{unwrap_or};
ghost use Rattle.engine_turns.specs.CallRows.{CallRow, LeaveRow, is_starved};
ghost use Rattle.machine_core.specs.LawfulCalls.{IsLawful};
ghost use Rattle.machine_core.specs.declared.events.Event.TheVariants.{Called};
ghost use Rattle.run_report.specs.Replies.{IsReplyAt, applied_reply, is_asking};
ghost use Rattle.stored_run.specs.Leavings.{LeavesDisk};
ghost use Rattle.stored_run.specs.Quiet.{is_quiet};
ghost use Rattle.stored_run.specs.Saves.{TellsOnly, UnlessStarved};
ghost use Rattle.stored_run.specs.Steps.{Continues, DoesRow, RunStays};
ghost use Rattle.stored_run.specs.Writings.{KeepsPayloads};

use crate::StoredRun;
use crate::following::runs_follow;
use dl_disk::Disk;
use dl_kinds::{Moment, NoMemory};
use engine_turns::{Outcome, Said};
use machine_core::{Applied, Call};
use run_report::{Reply, asks, changed_reply, changes_are_applied, reply_to};

// Whether memory ran out.
fn has_starved(outcome: Outcome) -> bool
    ensures { result ≡ is_starved outcome }
{
    match outcome {
        Outcome::Starved => true,
        _ => false,
    }
}

// Whether a call takes no download off: it asks, adds one, or changes the options of one.
fn is_quiet(call: &Call) -> bool
    ensures { result ≡ is_quiet call.now }
{
    match call {
        Call::AddUri { .. } | Call::AddTorrent { .. } | Call::ChangeOption { .. } => true,
        _ => asks(call),
    }
}

// What a call is answered: the reply that was read before it came, if it asks, or else what came of it.
fn reply_by(asked: Option<Reply>, applied: Applied) -> Reply
    ensures { result ≡ unwrap_or asked (applied_reply applied) }
{
    match asked {
        Some(reply) => reply,
        None => changed_reply(applied),
    }
}

impl<D: Disk> StoredRun<D> {
    // The reply of a call that asks, read off the run as it is before its event. None of a call that changes the run.
    fn asked_reply(&self, call: &Call) -> Result<Option<Reply>, NoMemory>
        ensures told { IfOk result (λ asked. IfSome asked
            (IsReplyAt self.entry.now.machine.start self.entry.now.machine.past
            call.now self.entry.now.now)) }
        ensures changes { IfOk result (λ asked. IfNone asked (is_asking call.now ≡ false)) }
    {
        if asks(call) {
            Ok(Some(reply_to(&self.machine, self.alloc, call, self.now)?))
        } else {
            Ok(None)
        }
    }

    // The event of a call comes. Told is its place in the journal, and its reply.
    fn apply(&mut self, session: u32, call: Call) -> Result<(u32, Reply), NoMemory>
        requires { IsLawful call }
        ensures came { OnOk result (TellsOnly (Called session call self.old.now ∷ [])
            self.old self.new) }
        ensures place { IfOk result (λ told. told.0 ≡ length self.old.machine.past) }
        ensures reply { IfOk result (λ told. IsReplyAt self.old.machine.start
            self.old.machine.past call self.old.now told.1) }
        ensures same { OnErr result (TellsOnly [] self.old self.new) }
    {
        runs_follow();
        changes_are_applied();
        let asked = self.asked_reply(&call)?;
        let place = self.machine.journal().len();
        let applied = self
            .machine
            .apply_call(self.alloc, session, call, self.now)?;
        Ok((place, reply_by(asked, applied)))
    }

    // A call that takes no download off, so that none is to be saved.
    fn call_quietly(&mut self, session: u32, call: Call) -> Said
        requires lawful { IsLawful call }
        requires quiet { is_quiet call ≡ true }
        ensures row { DoesRow (λ at s. UnlessStarved (CallRow at s session call)) self.old
            (D.faults self.old.disk) self.new (D.faults self.new.disk) result }
        ensures on { RunStays self.old self.new }
        ensures leaves { IsTrue D.tells → LeavesDisk self.old self.new
            (D.state self.old.disk) (D.state self.new.disk) }
        ensures payloads { IsTrue D.tells → KeepsPayloads self.old
            (D.state self.old.disk) (D.state self.new.disk) }
    {
        runs_follow();
        self.tells_stored();
        match self.apply(session, call) {
            Ok((place, reply)) => Said::Replied {
                place,
                reply,
                starved: false,
            },
            Err(NoMemory) => Said::NoMemory,
        }
    }

    // A call that may take downloads off.
    fn call_saving(&mut self, session: u32, call: Call) -> Said
        requires { IsLawful call }
        ensures row { DoesRow (λ at s. UnlessStarved (CallRow at s session call)) self.old
            (D.faults self.old.disk) self.new (D.faults self.new.disk) result }
        ensures on { RunStays self.old self.new }
        ensures leaves { IsTrue D.tells → LeavesDisk self.old self.new
            (D.state self.old.disk) (D.state self.new.disk) }
        ensures payloads { IsTrue D.tells → KeepsPayloads self.old
            (D.state self.old.disk) (D.state self.new.disk) }
    {
        runs_follow();
        self.tells_stored();
        let Ok(was) = self.statuses() else {
            return Said::NoMemory;
        };
        let Ok((place, reply)) = self.apply(session, call) else {
            return Said::NoMemory;
        };
        match self.due_off(&was) {
            Ok(due) => {
                let outcome = self.save_all(&due);
                let starved = has_starved(outcome);
                Said::Replied {
                    place,
                    reply,
                    starved,
                }
            }
            Err(NoMemory) => Said::Replied {
                place,
                reply,
                starved: true,
            },
        }
    }

    /// A call of a console session, or of the command line. The progress of the downloads that it takes off is saved, in the
    /// order of adding; want of memory for that leaves out the rest. For want of memory before the call's event nothing
    /// changes. Only where a call may take downloads off it takes time in proportion to how many there are.
    pub fn call(&mut self, session: u32, call: Call) -> Said
        requires { IsLawful call }
        ensures row { DoesRow (λ at s. UnlessStarved (CallRow at s session call)) self.old
            (D.faults self.old.disk) self.new (D.faults self.new.disk) result }
        ensures on { RunStays self.old self.new }
        ensures leaves { IsTrue D.tells → LeavesDisk self.old self.new
            (D.state self.old.disk) (D.state self.new.disk) }
        ensures payloads { IsTrue D.tells → KeepsPayloads self.old
            (D.state self.old.disk) (D.state self.new.disk) }
    {
        if is_quiet(&call) {
            self.call_quietly(session, call)
        } else {
            self.call_saving(session, call)
        }
    }

    /// A door of the console closed.
    pub fn leave(&mut self) -> Said
        ensures row { DoesRow LeaveRow self.old (D.faults self.old.disk)
            self.new (D.faults self.new.disk) result }
        ensures on { Continues 0 self.old self.new }
        ensures disk { self.new.disk ≡ self.old.disk }
        ensures leaves { IsTrue D.tells → LeavesDisk self.old self.new
            (D.state self.old.disk) (D.state self.new.disk) }
    {
        runs_follow();
        if self.machine.doors() == 0 {
            return Said::Done;
        }
        self.machine.left();
        Said::Done
    }

    /// The moment of the next operation. An earlier one than before changes nothing.
    pub fn come_to(&mut self, now: Moment)
        ensures { self.new ≡ record self.old { now = record { 0 = max now.0 self.old.now.0 } } }
    {
        if self.now.0 < now.0 {
            self.now = now;
        }
    }
}
