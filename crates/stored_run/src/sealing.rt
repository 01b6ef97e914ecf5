// Full pieces are read, settled by their digests, and count as right where their download has none.
ghost use Rattle.std.specs.Prelude.{◌≡◌, ◌≢◌, ◌≤◌, [], false, IfErr, IfOk, IsTrue, None, OnOk, true};
ghost use Rattle.std.specs.Str.{bytes_eq};
ghost use Rattle.dl_disk.specs.Files.{IsSame};
ghost use Rattle.engine_turns.specs.Phases.{AfterDisk, AndThen, EndingOr, NoEvent, SettlingPhase};
ghost use Rattle.engine_turns.specs.SealRows.{has_listed_digest};
ghost use Rattle.engine_turns.specs.Standings.{AnswersUnlessStarved};
ghost use Rattle.engine_turns.specs.declared.operations.Said.TheVariants.{Done, Void};
ghost use Rattle.engine_turns.specs.declared.outcome.Outcome.TheVariants.{Went};
ghost use Rattle.machine_core.specs.MachineViews.{IsFindingOf, IsNext, mark_spare_in};
ghost use Rattle.machine_core.specs.Reads.{IsPieceOfGid, lengths_of_gid};
ghost use Rattle.stored_run.specs.Checks.{ChecksOnly, ChecksTruly};
ghost use Rattle.stored_run.specs.Granting.{IsLongAsPiece};
ghost use Rattle.stored_run.specs.Leavings.{IsLeftOf, LeavesDisk};
ghost use Rattle.stored_run.specs.Settlings.{CountedRow, HasItsDigest, IsListedDigest, IsSettledBetween, IsToBeSettled, OfDownload, OfWant, ReadsPieceOf, SealedRow, SettlesIfSame, UnreadRow, has_digest_in};
ghost use Rattle.stored_run.specs.Views.{IsGoing};
ghost use Rattle.stored_run.specs.Steps.{Continues, DoesPart, DoesRow, EndsGid, KeepsPayload, StoresGid};
ghost use Rattle.stored_run.specs.Writings.{KeepsPayloads};
ghost use Rattle.verify_piece.specs.Checks.{has_digest};

use crate::StoredRun;
use crate::following::runs_follow;
use dl_disk::Disk;
use dl_kinds::{Blob, Digests, Gid};
use engine_turns::{Outcome, Said};
use machine_core::End;
use resume_core::{StoreErr, read_piece, same_files_give_the_same};
use verify_piece::Sealed;

// Want of memory is answered as such, and all else as done.
pub(crate) fn done_unless_starved(outcome: Outcome) -> Said
    ensures { AnswersUnlessStarved Done outcome result }
{
    match outcome {
        Outcome::Starved => Said::NoMemory,
        _ => Said::Done,
    }
}

// Whether these are the sealed bytes.
fn are_sealed(sealed: &Sealed, bytes: &[u8]) -> bool
    ensures { result ≡ bytes_eq bytes.now sealed.now.bytes }
{
    bytes == sealed.bytes()
}

// Whether sealed bytes have this digest.
fn is_digest(sealed: &Sealed, digest: &[u8; 20]) -> bool
    ensures { result ≡ has_digest sealed.now.bytes digest.now }
{
    sealed.digest().as_slice() == digest.as_slice()
}

// Whether sealed bytes have the digest that is listed at the place of their piece. Without one they count as right.
fn has_its_digest(digests: &Digests, sealed: &Sealed) -> bool
    ensures { result ≡ has_digest_in digests.now sealed.now }
{
    match digests.get(sealed.piece() as usize) {
        Some(digest) => is_digest(sealed, digest),
        None => true,
    }
}

impl<D: Disk> StoredRun<D> {
    // Reads a piece. A fault of the disk ends its download.
    fn read_into(&mut self, gid: Gid, piece: u32, into: &mut Vec<u8>) -> Outcome
        requires going { IsGoing self.old gid }
        requires piece { IsPieceOfGid self.old.machine gid piece }
        requires room { 1 ≤ self.old.machine.spare }
        ensures did { DoesPart (λ at. AfterDisk at gid [])
            self.old (D.faults self.old.disk) self.new (D.faults self.new.disk) result }
        ensures on { Continues 1 self.old self.new }
        ensures disk { IsTrue D.tells → StoresGid gid self.old self.new
            (D.state self.old.disk) (D.state self.new.disk) }
        ensures left { result ≢ Went → IsTrue D.tells
            → IsLeftOf self.new gid (D.state self.new.disk) }
        ensures read { result ≡ Went → IsTrue D.tells
            → ReadsPieceOf self.old gid piece (D.state self.old.disk).seen into.new.items }
        ensures len { result ≡ Went
            → IsLongAsPiece (lengths_of_gid self.old.machine gid) piece into.new.items }
        ensures same { result ≡ Went → self.new.machine ≡ self.old.machine }
        ensures still { result ≡ Went → IsTrue D.tells
            → IsSame (D.state self.old.disk).seen (D.state self.new.disk).seen }
        ensures payload { IsTrue D.tells → KeepsPayload gid self.old
            (D.state self.old.disk) (D.state self.new.disk) }
    {
        runs_follow();
        same_files_give_the_same();
        let place = self.machine.place(gid).unwrap();
        let want = self.wants[place].as_ref().unwrap();
        match read_piece(self.alloc, &mut self.disk, want, piece, into) {
            Ok(()) => Outcome::Went,
            Err(StoreErr::Disk) => {
                let count = self.disk.faults();
                self.machine.ended(gid, End::Disk { count });
                Outcome::Over
            }
            Err(StoreErr::NoMemory) => Outcome::Starved,
        }
    }

    // A full piece is found right or wrong, and its download ends where each wanted piece is verified.
    pub(crate) fn settle_and_end(&mut self, gid: Gid, piece: u32, right: bool) -> Outcome
        requires going { IsGoing self.old gid }
        requires may { IsNext self.old.machine (IsFindingOf gid piece right) }
        requires digest { right ≡ true → IsTrue D.tells
            → HasItsDigest self.old gid piece (D.state self.old.disk).seen }
        requires mark_room { right ≡ false → 1 ≤ mark_spare_in self.old.machine gid }
        requires room { 6 ≤ self.old.machine.spare }
        ensures did { OfDownload self.old gid (λ download. DoesPart (λ at.
            AndThen (SettlingPhase at download piece right) (EndingOr at download NoEvent))
            self.old (D.faults self.old.disk) self.new (D.faults self.new.disk) result) }
        ensures on { Continues 6 self.old self.new }
        ensures disk { IsTrue D.tells → EndsGid gid self.old self.new
            (D.state self.old.disk) (D.state self.new.disk) }
        ensures left { IsTrue D.tells → IsLeftOf self.new gid (D.state self.new.disk) }
        ensures payload { IsTrue D.tells → KeepsPayload gid self.old
            (D.state self.old.disk) (D.state self.new.disk) }
        ensures checks { IsTrue D.tells
            → ChecksOnly gid self.old self.new (D.state self.new.disk).seen }
    {
        runs_follow();
        self.tells_stored();
        match self.settle(gid, piece, right) {
            Outcome::Went => {
                self.tells_stored();
                self.end_if_done(gid)
            }
            outcome => outcome,
        }
    }

    // Whether sealed bytes have the digest that the metainfo file lists for their piece. Without one they count as right.
    fn is_right(&self, gid: Gid, sealed: &Sealed) -> bool
        requires going { IsGoing self.now gid }
        requires piece { IsPieceOfGid self.now.machine gid sealed.now.piece }
        ensures listed { OfDownload self.entry.now gid (λ download.
            result ≡ has_listed_digest download.subject sealed.now) }
        ensures digest { result ≡ true → IsListedDigest self.entry.now gid sealed.now }
    {
        self.tells_stored();
        has_its_digest(&self.want(gid).unwrap().digests, sealed)
    }

    // Settles a piece by the digest of its bytes, as the disk reads them, and ends the download where it is done.
    fn settle_sealed(&mut self, gid: Gid, sealed: &Sealed) -> Outcome
        requires going { IsGoing self.old gid }
        requires piece { IsToBeSettled self.old gid sealed.now.piece }
        requires mark_room { 1 ≤ mark_spare_in self.old.machine gid }
        requires room { 6 ≤ self.old.machine.spare }
        requires read { IsTrue D.tells
            → ReadsPieceOf self.old gid sealed.now.piece (D.state self.old.disk).seen
            sealed.now.bytes }
        ensures did { OfDownload self.old gid (λ download. DoesPart (λ at. AndThen
            (SettlingPhase at download sealed.now.piece
            (has_listed_digest download.subject sealed.now))
            (EndingOr at download NoEvent))
            self.old (D.faults self.old.disk) self.new (D.faults self.new.disk) result) }
        ensures on { Continues 6 self.old self.new }
        ensures disk { IsTrue D.tells → EndsGid gid self.old self.new
            (D.state self.old.disk) (D.state self.new.disk) }
        ensures left { IsTrue D.tells → IsLeftOf self.new gid (D.state self.new.disk) }
        ensures payload { IsTrue D.tells → KeepsPayload gid self.old
            (D.state self.old.disk) (D.state self.new.disk) }
        ensures checks { IsTrue D.tells
            → ChecksOnly gid self.old self.new (D.state self.new.disk).seen }
    {
        let right = self.is_right(gid, sealed);
        self.settle_and_end(gid, sealed.piece(), right)
    }

    // The piece was read, with these bytes: it is settled where the sealed ones are the same.
    fn settle_if_same(&mut self, gid: Gid, sealed: &Sealed, bytes: &[u8]) -> Said
        requires going { IsGoing self.old gid }
        requires piece { IsToBeSettled self.old gid sealed.now.piece }
        requires mark_room { 1 ≤ mark_spare_in self.old.machine gid }
        requires room { 6 ≤ self.old.machine.spare }
        requires read { IsTrue D.tells → ReadsPieceOf self.old gid sealed.now.piece
            (D.state self.old.disk).seen bytes.now }
        ensures came { OfDownload self.old gid (λ download. SettlesIfSame download sealed.now
            bytes.now self.old (D.faults self.old.disk) self.new (D.faults self.new.disk) result) }
        ensures on { Continues 6 self.old self.new }
        ensures disk { IsTrue D.tells → EndsGid gid self.old self.new
            (D.state self.old.disk) (D.state self.new.disk) }
        ensures left { IsTrue D.tells → IsLeftOf self.new gid (D.state self.new.disk) }
        ensures payload { IsTrue D.tells → KeepsPayload gid self.old
            (D.state self.old.disk) (D.state self.new.disk) }
        ensures checks { IsTrue D.tells
            → ChecksOnly gid self.old self.new (D.state self.new.disk).seen }
    {
        runs_follow();
        self.tells_stored();
        if are_sealed(sealed, bytes) {
            done_unless_starved(self.settle_sealed(gid, sealed))
        } else {
            Said::Void
        }
    }

    /// The sealed bytes of a full piece settle it where they are what the disk reads. Then the download may end, if each
    /// wanted piece is verified, or if no mirror has a try left for a wrong piece.
    pub fn seal(&mut self, gid: Gid, sealed: &Sealed) -> Said
        requires going { IsGoing self.old gid }
        requires piece { IsToBeSettled self.old gid sealed.now.piece }
        requires mark_room { 1 ≤ mark_spare_in self.old.machine gid }
        requires room { 7 ≤ self.old.machine.spare }
        ensures row { DoesRow (SealedRow gid sealed.now)
            self.old (D.faults self.old.disk) self.new (D.faults self.new.disk) result }
        ensures on { Continues 7 self.old self.new }
        ensures leaves { IsTrue D.tells → LeavesDisk self.old self.new
            (D.state self.old.disk) (D.state self.new.disk) }
        ensures settled { IsTrue D.tells
            → IsSettledBetween self.old.machine.past self.new.machine.past gid sealed.now.piece
            → ReadsPieceOf self.old gid sealed.now.piece (D.state self.old.disk).seen
            sealed.now.bytes }
        ensures void { IsTrue D.tells → result ≡ Void
            → ¬ ReadsPieceOf self.old gid sealed.now.piece (D.state self.old.disk).seen
            sealed.now.bytes }
        ensures payloads { IsTrue D.tells → KeepsPayloads self.old
            (D.state self.old.disk) (D.state self.new.disk) }
        ensures checks { IsTrue D.tells
            → ChecksTruly self.old self.new (D.state self.new.disk).seen }
    {
        runs_follow();
        self.tells_stored();
        let mut bytes = Vec::new(self.alloc);
        match self.read_into(gid, sealed.piece(), &mut bytes) {
            Outcome::Went => {
                self.tells_stored();
                self.settle_if_same(gid, sealed, &bytes)
            }
            outcome => done_unless_starved(outcome),
        }
    }

    /// Reads a piece, for a worker to hash it.
    pub fn read_whole(&mut self, gid: Gid, piece: u32) -> Result<Blob, Said>
        requires going { IsGoing self.old gid }
        requires piece { IsPieceOfGid self.old.machine gid piece }
        requires room { 1 ≤ self.old.machine.spare }
        ensures read { IfOk result (λ bytes. IsTrue D.tells
            → ReadsPieceOf self.old gid piece (D.state self.old.disk).seen bytes) }
        ensures len { IfOk result (IsLongAsPiece (lengths_of_gid self.old.machine gid) piece) }
        ensures unfailed { OnOk result (D.faults self.new.disk ≡ D.faults self.old.disk) }
        ensures same { OnOk result (self.new.machine ≡ self.old.machine) }
        ensures row { IfErr result (DoesRow (UnreadRow gid)
            self.old (D.faults self.old.disk) self.new (D.faults self.new.disk)) }
        ensures on { Continues 1 self.old self.new }
        ensures leaves { IsTrue D.tells → LeavesDisk self.old self.new
            (D.state self.old.disk) (D.state self.new.disk) }
        ensures payloads { IsTrue D.tells → KeepsPayloads self.old
            (D.state self.old.disk) (D.state self.new.disk) }
        ensures checks { IsTrue D.tells
            → ChecksTruly self.old self.new (D.state self.new.disk).seen }
    {
        runs_follow();
        self.tells_stored();
        let mut bytes = Vec::new(self.alloc);
        match self.read_into(gid, piece, &mut bytes) {
            Outcome::Went => {
                self.tells_stored();
                Ok(Blob::wrap(bytes))
            }
            outcome => Err(done_unless_starved(outcome)),
        }
    }

    /// A full piece of a download without digests counts as right.
    pub fn count_whole(&mut self, gid: Gid, piece: u32) -> Said
        requires going { IsGoing self.old gid }
        requires piece { IsToBeSettled self.old gid piece }
        requires unlisted { OfWant self.old gid (λ want. want.info_hash ≡ None) }
        requires room { 6 ≤ self.old.machine.spare }
        ensures row { DoesRow (CountedRow gid piece)
            self.old (D.faults self.old.disk) self.new (D.faults self.new.disk) result }
        ensures on { Continues 6 self.old self.new }
        ensures leaves { IsTrue D.tells → LeavesDisk self.old self.new
            (D.state self.old.disk) (D.state self.new.disk) }
        ensures payloads { IsTrue D.tells → KeepsPayloads self.old
            (D.state self.old.disk) (D.state self.new.disk) }
        ensures checks { IsTrue D.tells
            → ChecksTruly self.old self.new (D.state self.new.disk).seen }
    {
        runs_follow();
        self.tells_stored();
        done_unless_starved(self.settle_and_end(gid, piece, true))
    }
}
