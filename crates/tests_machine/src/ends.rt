// How downloads of a run are saved and end, and how the run stops.
ghost use Rattle.std.specs.Prelude.{◌≡◌, ◌≤◌, true, false, None, Some};
ghost use Rattle.std.specs.Option.{is_some, option_map_or};
ghost use Rattle.dl_history.specs.OwnEvents.{Halts};
ghost use Rattle.dl_kinds.specs.Plan.{IsPlan};
ghost use Rattle.dl_queue.specs.Calls.{is_unfinished};
ghost use Rattle.machine_core.specs.Done.{IsDoneGid};
ghost use Rattle.machine_core.specs.MachineViews.{IsNext, IsSizingBy, StandsUnder};
ghost use Rattle.machine_core.specs.OwnParts.{payload_lengths_of};
ghost use Rattle.machine_core.specs.RunLegal.{MayFollow, MayOwn, download_in};
ghost use Rattle.machine_core.specs.Starts.{Download};
ghost use Rattle.machine_core.specs.declared.events.Event.TheVariants.{Checked, Ended};
ghost use Rattle.option_set.specs.Values.{number_value, text_of_word};
ghost use Rattle.option_set.specs.declared.kinds.Num.TheVariants as num;
ghost use Rattle.option_set.specs.declared.kinds.Word.TheVariants as word;

use crate::rig::Rig;
use dl_kinds::{Claim, Gid, Mark, Plan, Status};
use engine_turns::downloads_go_on_once;
use machine_core::{End, Machine, downloads_stay};
use option_set::{Num, Word};
use std::alloc::{AllocError, Global};

fn is_going(status: Option<Status>) -> bool
    ensures { result ≡ option_map_or is_unfinished status false }
{
    match status {
        Some(Status::Active | Status::Waiting | Status::Paused) => true,
        _ => false,
    }
}

// Whether a download was added and goes on.
pub(crate) fn goes_on(machine: &Machine, gid: Gid) -> bool
    ensures { result ≡ true → MayOwn machine.now.start machine.now.past gid (Halts true) }
{
    downloads_go_on_once();
    let _ = machine.journal().len();
    if machine.options(gid).is_none() {
        return false;
    }
    is_going(machine.status(gid))
}

// Whether the options of a download have a checksum; also where it wasn't added.
fn has_checksum(machine: &Machine, gid: Gid) -> bool
    ensures { (download : Download)
        → download_in machine.now.start machine.now.past gid ≡ Some download
        → result ≡ is_some (text_of_word download.options word.Checksum) }
{
    match machine.begun(gid) {
        Some(options) => options.text(Word::Checksum).is_some(),
        None => true,
    }
}

// Whether no plan has so many bytes, in pieces of the length that the options of a download give.
pub(crate) fn is_too_long(machine: &Machine, gid: Gid, total: u64) -> bool
    ensures { result ≡ true → (download : Download)
        → download_in machine.now.start machine.now.past gid ≡ Some download
        → ¬ IsPlan total (number_value download.options num.PieceLength) }
{
    match machine.begun(gid) {
        Some(options) => Plan::new(total, options.number(Num::PieceLength) as u32).is_none(),
        None => false,
    }
}

impl Rig {
    // A download ends so.
    fn end(&mut self, gid: Gid, end: End)
        requires due { MayFollow self.old.machine.start self.old.machine.past (Ended gid end) }
        requires room { 1 ≤ self.old.machine.spare }
    {
        self.machine.ended(gid, end);
        self.handed.keep_active(&self.machine);
    }

    // The probe of a download that goes on tells a length of which no plan has pieces of the download's length.
    pub(crate) fn outgrow(&mut self, gid: Gid, claim: u64, probe: Claim, total: u64)
        requires due { IsNext self.old.machine (IsSizingBy claim total) }
        requires home { StandsUnder self.old.machine claim gid probe }
        requires going { MayOwn self.old.machine.start self.old.machine.past gid (Halts true) }
        requires long { (download : Download)
            → download_in self.old.machine.start self.old.machine.past gid ≡ Some download
            → ¬ IsPlan total (number_value download.options num.PieceLength) }
        requires room { 2 ≤ self.old.machine.spare }
    {
        self.machine.sized(claim, total);
        self.end(gid, End::TooLarge { total });
    }

    // The payload of a download that goes on is found right, and the download is complete.
    fn check_right(&mut self, gid: Gid)
        requires due { MayFollow self.old.machine.start self.old.machine.past (Checked gid true) }
        requires going { MayOwn self.old.machine.start self.old.machine.past gid (Halts true) }
        requires done { IsDoneGid self.old.machine gid }
        requires sized { is_some
            (payload_lengths_of self.old.machine.start self.old.machine.past gid) ≡ true }
        requires room { 2 ≤ self.old.machine.spare }
    {
        downloads_stay();
        let _ = self.machine.journal().len();
        self.machine.checked(gid, true);
        self.end(gid, End::Complete);
    }

    // The payload of a download that goes on is found wrong, and the download ends.
    fn check_wrong(&mut self, gid: Gid)
        requires due { MayFollow self.old.machine.start self.old.machine.past (Checked gid false) }
        requires going { MayOwn self.old.machine.start self.old.machine.past gid (Halts true) }
        requires room { 2 ≤ self.old.machine.spare }
    {
        self.machine.checked(gid, false);
        self.end(gid, End::Checksum);
    }

    /// The whole payload of a download is found right or wrong that goes on, has no metainfo file but a checksum, and whose
    /// wanted pieces are all verified: then it ends. Told is whether it did.
    pub fn check(&mut self, alloc: Global, gid: Gid, right: bool) -> Result<bool, AllocError> {
        self.machine.reserve_turn()?;
        let Some(want) = self.machine.make_want(alloc, gid)? else {
            return Ok(false);
        };
        if want.info_hash.is_some() {
            return Ok(false);
        }
        if !has_checksum(&self.machine, gid) {
            return Ok(false);
        }
        if !goes_on(&self.machine, gid) {
            return Ok(false);
        }
        if self.machine.table(gid).is_none() || !self.machine.is_done(gid) {
            return Ok(false);
        }
        if right {
            self.check_right(gid);
        } else {
            self.check_wrong(gid);
        }
        Ok(true)
    }

    /// The progress of a download is saved, where it is opened and goes on. Told is whether it was.
    pub fn save(&mut self, gid: Gid) -> Result<bool, AllocError> {
        self.machine.reserve_turn()?;
        if self.machine.table(gid).is_none() || !goes_on(&self.machine, gid) {
            return Ok(false);
        }
        self.machine.saved(gid, self.now);
        Ok(true)
    }

    /// Whether a save of a download that is opened would list other blocks or pieces than the last one does.
    pub fn is_unsaved(&self, gid: Gid) -> bool {
        self.machine.table(gid).is_some() && self.machine.unsaved(gid)
    }

    /// A download without a checksum is complete, where it goes on and each wanted piece is verified. Told is whether it is.
    pub fn complete(&mut self, gid: Gid) -> Result<bool, AllocError> {
        self.machine.reserve_turn()?;
        if !goes_on(&self.machine, gid) || has_checksum(&self.machine, gid) {
            return Ok(false);
        }
        if self.machine.table(gid).is_none() || !self.machine.is_done(gid) {
            return Ok(false);
        }
        self.end(gid, End::Complete);
        Ok(true)
    }

    /// A download ends that goes on, where no mirror has a try left for a piece. Told is the last mark.
    pub fn die(&mut self, gid: Gid, piece: u32) -> Result<Option<Mark>, AllocError> {
        self.machine.reserve_turn()?;
        if !goes_on(&self.machine, gid) {
            return Ok(None);
        }
        match self.machine.dead(gid, piece) {
            Some(mark) => {
                self.end(gid, End::Dead { piece, mark });
                Ok(Some(mark))
            }
            None => Ok(None),
        }
    }

    /// The disk fails as often as can be counted, and with it a download that goes on. Told is whether it did.
    pub fn fail(&mut self, gid: Gid) -> Result<bool, AllocError> {
        self.machine.reserve_turn()?;
        if !goes_on(&self.machine, gid) {
            return Ok(false);
        }
        self.end(gid, End::Disk { count: u64::MAX });
        Ok(true)
    }

    /// The download that is to be opened next ends, where it clashes with another. Told is how.
    pub fn clash_next(&mut self, alloc: Global) -> Result<Option<End>, AllocError> {
        self.machine.reserve_turn()?;
        let Some(gid) = self.machine.next_to_open() else {
            return Ok(None);
        };
        if !self.machine.is_active(gid) || !goes_on(&self.machine, gid) {
            return Ok(None);
        }
        match self.machine.clash(alloc, gid)? {
            Some(end) => {
                self.end(gid, end);
                Ok(Some(end))
            }
            None => Ok(None),
        }
    }

    /// The run stops, where it isn't finished. Told is whether it did.
    pub fn stop(&mut self) -> bool {
        if self.machine.finished() {
            return false;
        }
        self.machine.stopped();
        true
    }
}
