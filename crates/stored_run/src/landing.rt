// Blocks that came are written and counted.
ghost use Rattle.std.specs.Prelude.{◌≡◌, ◌≢◌, ◌≤◌, ◌∷◌, [], length, IsTrue};
ghost use Rattle.dl_kinds.specs.Plan.{IsPlan};
ghost use Rattle.engine_turns.specs.Phases.{AfterDisk, LandingsPhase};
ghost use Rattle.engine_turns.specs.declared.outcome.Outcome.TheVariants.{Went};
ghost use Rattle.machine_core.specs.Claiming.{AreOpenIn};
ghost use Rattle.machine_core.specs.MachineViews.{StandsUnder};
ghost use Rattle.machine_core.specs.Reads.{IsOpenedGid, lengths_of_gid};
ghost use Rattle.machine_core.specs.RunLegal.{MayFollow};
ghost use Rattle.machine_core.specs.declared.events.Event.TheVariants as event;
ghost use Rattle.stored_run.specs.Deliveries.{Delivers, IsPartOf, IsRangeOf, IsRunOfPayload, LandedBetween};
ghost use Rattle.stored_run.specs.Landings.{HasRunLen, HoldsRunOf, IsOneUnder};
ghost use Rattle.stored_run.specs.Leavings.{IsLeftOf};
ghost use Rattle.stored_run.specs.Steps.{Continues, DoesPart, StoresGid};
ghost use Rattle.stored_run.specs.Views.{IsGoing, own_in};
ghost use Rattle.stored_run.specs.Writings.{HoldsLanded, HoldsPartOf, KeepsBeside, KeepsOutside};

use crate::StoredRun;
use crate::following::runs_follow;
use dl_disk::Disk;
use dl_kinds::{Claim, Gid, Plan, Run, plan_laws};
use durable_progress::write_held;
use engine_turns::Outcome;
use machine_core::End;
use piece_table::NewRuns;
use resume_core::StoreErr;

impl<D: Disk> StoredRun<D> {
    // Writes a run of blocks that are open in a claim, and counts them then. A fault of the disk ends the download.
    fn land_one(&mut self, gid: Gid, claim: Claim, run: Run, bytes: &[u8]) -> Outcome
        requires one { IsOneUnder self.old.machine gid claim }
        requires may { MayFollow self.old.machine.start self.old.machine.past
            (event.Landed gid claim.id claim.mirror run self.old.now) }
        requires few { run.count ≤ 64 }
        requires len { HasRunLen self.old.machine gid run (length bytes.now) }
        requires room { 1 ≤ self.old.machine.spare }
        ensures did { DoesPart
            (λ at. AfterDisk at gid (event.Landed gid claim.id claim.mirror run at.now ∷ []))
            self.old (D.faults self.old.disk) self.new (D.faults self.new.disk) result }
        ensures on { Continues 1 self.old self.new }
        ensures disk { IsTrue D.tells → StoresGid gid self.old self.new
            (D.state self.old.disk) (D.state self.new.disk) }
        ensures left { result ≢ Went → IsTrue D.tells
            → IsLeftOf self.new gid (D.state self.new.disk) }
        ensures written { result ≡ Went → IsTrue D.tells → HoldsRunOf gid run bytes.now self.old
            (D.state self.old.disk) (D.state self.new.disk) }
        ensures outside { IsTrue D.tells → KeepsOutside gid run self.old
            (D.state self.old.disk) (D.state self.new.disk) }
    {
        plan_laws();
        runs_follow();
        let place = self.machine.place(gid).unwrap();
        let want = self.wants[place].as_ref().unwrap();
        match write_held(self.alloc, &mut self.disk, want, run, bytes) {
            Ok(()) => {
                self.machine.landed(claim.id, run, self.now);
                Outcome::Went
            }
            Err(StoreErr::Disk) => {
                let count = self.disk.faults();
                self.machine.ended(gid, End::Disk { count });
                Outcome::Over
            }
            Err(StoreErr::NoMemory) => Outcome::Starved,
        }
    }

    // How the payload of a download that is opened is cut.
    pub(crate) fn plan_of(&self, gid: Gid) -> Plan
        requires { IsOpenedGid self.now.machine gid }
        ensures total { result.total ≡ (lengths_of_gid self.entry.now.machine gid).total }
        ensures piece_len { result.piece_len
            ≡ (lengths_of_gid self.entry.now.machine gid).piece_len }
        ensures plan { IsPlan (lengths_of_gid self.entry.now.machine gid).total
            (lengths_of_gid self.entry.now.machine gid).piece_len }
    {
        self.tells_stored();
        self.want(gid).unwrap().plan
    }

    // From where to where the bytes of a part of a run stand among those of the run.
    fn part_range(&self, gid: Gid, run: Run, part: Run) -> (usize, usize)
        requires opened { IsOpenedGid self.now.machine gid }
        requires run { IsRunOfPayload (lengths_of_gid self.now.machine gid) run }
        requires part { IsPartOf run part }
        ensures { IsRangeOf (lengths_of_gid self.entry.now.machine gid) run part result.0 result.1 }
    {
        plan_laws();
        let plan = self.plan_of(gid);
        let (start, _) = plan.block_span(run.first);
        let (from, _) = plan.block_span(part.first);
        let (last, len) = plan.block_span(part.first + (part.count - 1));
        let from = from - start;
        let to = last + len as u64 - start;
        (from as usize, to as usize)
    }

    // Writes a part of a delivered run, and counts its blocks.
    fn land_part(&mut self, gid: Gid, claim: Claim, run: Run, part: Run, bytes: &[u8]) -> Outcome
        requires opened { IsOpenedGid self.old.machine gid }
        requires one { IsOneUnder self.old.machine gid claim }
        requires may { MayFollow self.old.machine.start self.old.machine.past
            (event.Landed gid claim.id claim.mirror part self.old.now) }
        requires part { IsPartOf run part }
        requires run { IsRunOfPayload (lengths_of_gid self.old.machine gid) run }
        requires len { HasRunLen self.old.machine gid run (length bytes.now) }
        requires room { 1 ≤ self.old.machine.spare }
        ensures did { DoesPart
            (λ at. AfterDisk at gid (event.Landed gid claim.id claim.mirror part at.now ∷ []))
            self.old (D.faults self.old.disk) self.new (D.faults self.new.disk) result }
        ensures on { Continues 1 self.old self.new }
        ensures disk { IsTrue D.tells → StoresGid gid self.old self.new
            (D.state self.old.disk) (D.state self.new.disk) }
        ensures left { result ≢ Went → IsTrue D.tells
            → IsLeftOf self.new gid (D.state self.new.disk) }
        ensures written { result ≡ Went → IsTrue D.tells → HoldsPartOf gid run part bytes.now
            self.old (D.state self.old.disk) (D.state self.new.disk) }
        ensures outside { IsTrue D.tells → KeepsOutside gid part self.old
            (D.state self.old.disk) (D.state self.new.disk) }
    {
        self.tells_stored();
        let (from, to) = self.part_range(gid, run, part);
        self.land_one(gid, claim, part, &bytes[from..to])
    }

    // Writes and counts the runs of a delivered run that are open in its claim, one after another. Told is how many blocks
    // were counted.
    pub(crate) fn land_all(
        &mut self,
        gid: Gid,
        claim: Claim,
        run: Run,
        open_runs: &NewRuns,
        bytes: &[u8],
    ) -> (u32, Outcome)
        requires going { IsGoing self.old gid }
        requires stands { StandsUnder self.old.machine claim.id gid claim }
        requires delivery { Delivers self.old gid claim run bytes.now }
        requires run { IsRunOfPayload (lengths_of_gid self.old.machine gid) run }
        requires open_runs { AreOpenIn (own_in self.old gid) claim run open_runs.now }
        requires room { length open_runs.now ≤ self.old.machine.spare }
        ensures did { DoesPart (λ at. LandingsPhase at gid claim.id claim.mirror open_runs.now)
            self.old (D.faults self.old.disk) self.new (D.faults self.new.disk) result.1 }
        ensures on { Continues (length open_runs.now) self.old self.new }
        ensures disk { IsTrue D.tells → StoresGid gid self.old self.new
            (D.state self.old.disk) (D.state self.new.disk) }
        ensures left { result.1 ≢ Went → IsTrue D.tells
            → IsLeftOf self.new gid (D.state self.new.disk) }
        ensures counted { LandedBetween result.0 self.old.machine.past self.new.machine.past }
        ensures written { IsTrue D.tells → HoldsLanded claim.id run bytes.now
            self.old self.new (D.state self.new.disk).seen }
        ensures alone { IsTrue D.tells → KeepsBeside gid open_runs.now self.old
            (D.state self.old.disk) (D.state self.new.disk) }
    {
        plan_laws();
        runs_follow();
        self.tells_stored();
        let mut counted = 0;
        for place in 0..open_runs.len() {
            self.tells_stored();
            let part = open_runs.get(place).unwrap();
            match self.land_part(gid, claim, run, part, bytes) {
                Outcome::Went => counted += part.count,
                outcome => return (counted, outcome),
            }
        }
        (counted, Outcome::Went)
    }
}
