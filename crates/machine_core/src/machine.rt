// The state of a run.
ghost use Rattle.std.specs.Prelude.{◌≡◌, ◌≤◌, ◌↔◌, [], false, length, reverse, IfNone, IfOk, IfSome, MatchBool, None, OnErr, OnOk, option_copied, slice_get, true};
ghost use Rattle.std.specs.List.{list_any};
ghost use Rattle.std.specs.Option.{option_map};
ghost use Rattle.dl_history.specs.PayloadParts.{is_opened};
ghost use Rattle.dl_kinds.specs.declared.gid.Gid.{Gid};
ghost use Rattle.machine_core.specs.Answers.{applied_by};
ghost use Rattle.machine_core.specs.Choices.{options_now};
ghost use Rattle.dl_queue.specs.Places.{status_of};
ghost use Rattle.machine_core.specs.Replays.{queue_in, replay_of};
ghost use Rattle.machine_core.specs.OwnParts.{own_of};
ghost use Rattle.machine_core.specs.LawfulCalls.{IsLawful};
ghost use Rattle.machine_core.specs.MachineViews.{Appends, HasMarkRoomAt, IsFindingOf, IsLandingOf, IsLossOfClaim, IsNext, IsPlaceOf, IsSizingBy, StandsNowhere, StandsSomewhere, StandsUnder, IsFirstOpen, account_of_gid, is_added_in, UsesMarkRoomAt, UsesMarkRoomOf, UsesRoom, mark_spare_in, place_in};
ghost use Rattle.machine_core.specs.Reads.{HasNoDeadMark, IsPieceOfGid, IsAdding, IsAllSaved, IsDeadPiece, IsOpenedGid, IsPieceUnlisted, downloads_in, is_finished_in};
ghost use Rattle.machine_core.specs.RunLegal.{IsLaterThan, IsLegal, MayFollow, doors_left, download_in, is_stop};
ghost use Rattle.machine_core.specs.TurnRooms.{HasTurnMarkRoom, IsRoomierRun};
ghost use Rattle.machine_core.specs.declared.events.Event.TheVariants as event;
ghost use Rattle.machine_core.specs.declared.journal.TheConstants.{MAX_BEFORE_TURN, TURN_EVENTS};

use crate::calling::apply;
use crate::entries::Entry;
use crate::halts::halt_all;
use crate::notice_log::NoticeLog;
use crate::rests::is_at_rest;
use crate::spares::reserve_marks;
use crate::{Applied, Call, End, Event, Journal, MAX_BEFORE_TURN, TURN_EVENTS};
use dl_history::{accounts_match_events, histories_are_sound, unopened_accounts_are_alike};
use dl_kinds::{Claim, Gid, Mark, Moment, Run, Status, plan_laws};
use dl_queue::{ActiveGids, Queue};
use mirror_blame::counting_is_stable;
use one_download::steps_match_events;
use option_set::{Num, Options};
use piece_table::Table;
use std::alloc::{AllocError, Global};
use std::marker::Model;

/// A run: what happened, and what is kept of its queue and of each download.
#[derive(Drop)]
pub struct Machine {
    pub(crate) gids: u64,
    // The global options at the start, and as they are now.
    first: Options,
    global: Options,
    pub(crate) doors: u16,
    left: u16,
    shut: bool,
    stopped: bool,
    pub(crate) queue: Queue,
    // In the order of adding.
    pub(crate) entries: Vec<Entry>,
    // The gid of the download of each claim, by its number.
    pub(crate) homes: Vec<Gid>,
    pub(crate) journal: Journal,
    // The notices of its first events.
    pub(crate) log: NoticeLog,
}

impl Model for Machine {
    ghost use Rattle.std.specs.Prelude.{◌-◌, map, reverse};
    ghost use Rattle.machine_core.specs.Journals.{room_in};
    ghost use Rattle.machine_core.specs.MachineParts.{KeepsRun, kept_room};
    ghost use Rattle.machine_core.specs.MachineViews.{MachineView};

    ghost Value = { MachineView };

    ghost view = { λ m. record {
      start = record { gids = m.gids; global = m.first; doors = m.doors };
      past = reverse m.journal.events.items;
      spare = room_in m.journal - kept_room m.doors m.left m.stopped;
      mark_spares = map (λ entry. entry.state.mark_spare) m.entries.items;
    } };

    ghost invariant = { λ m. KeepsRun (reverse m.journal.events.items) record {
      start = record { gids = m.gids; global = m.first; doors = m.doors };
      events = m.journal.events.items;
      queue = m.queue;
      global = m.global;
      shut = m.shut;
      stopped = m.stopped;
      left = m.left;
      entries = m.entries.items;
      homes = m.homes.items;
      room = room_in m.journal;
      log = m.log;
    } };
}

fn gid_at(homes: &[Gid], id: u64) -> Option<Gid>
    ensures { result ≡ slice_get homes.now id }
{
    homes.get(id as usize).copied()
}

impl Machine {
    /// A run in which nothing happened. `gids` is what the gids of downloads are made from, `doors` how many doors the
    /// console has.
    pub fn new(alloc: Global, gids: u64, global: Options, doors: u16) -> Result<Self, AllocError>
        ensures start { IfOk result (λ m.
            m.start ≡ record { gids = gids; global = global; doors = doors }) }
        ensures past { IfOk result (λ m. m.past ≡ []) }
        ensures downloads { IfOk result (λ m. m.mark_spares ≡ []) }
    {
        let mut journal = Journal::new(alloc);
        journal.reserve(doors as usize + 1)?;
        let limit = global.number(Num::MaxConcurrentDownloads) as u16;
        let log = NoticeLog::new(alloc, &global)?;
        Ok(Machine {
            gids,
            first: global.copy(alloc)?,
            global,
            doors,
            left: 0,
            shut: false,
            stopped: false,
            queue: Queue::new(alloc, limit),
            entries: Vec::new(alloc),
            homes: Vec::new(alloc),
            journal,
            log,
        })
    }

    /// What happened.
    pub fn journal(&self) -> &Journal
        ensures events { result.now.events.items ≡ reverse self.now.past }
        ensures legal { IsLegal self.now.start self.now.past }
    {
        &self.journal
    }

    pub fn into_journal(self) -> Journal
        ensures events { result.events.items ≡ reverse self.past }
        ensures legal { IsLegal self.start self.past }
    {
        self.journal
    }

    /// The place of a download in the order of adding, from 0.
    pub fn place(&self, gid: Gid) -> Option<usize>
        ensures found { IfSome result (λ place. IsPlaceOf self.now gid place) }
        ensures first { IfSome result (λ place.
            place ≡ place_in self.now.start self.now.past gid) }
        ensures none { IfNone result (download_in self.now.start self.now.past gid ≡ None) }
    {
        self.queue.adding_place(gid)
    }

    /// The claim that stands under a number, and its download.
    pub fn claim(&self, id: u64) -> Option<(Gid, Claim)>
        ensures found { IfSome result (λ home. StandsUnder self.now id home.0 home.1) }
        ensures none { IfNone result (StandsNowhere self.now id) }
    {
        plan_laws();
        histories_are_sound();
        accounts_match_events();
        steps_match_events();
        let gid = gid_at(&self.homes, id)?;
        let place = self.place(gid)?;
        let claim = self.entries[place].state.claim(id)?;
        Some((gid, claim))
    }

    /// A call comes, of a console session or the command line. A refused one changes nothing but the history. Those that
    /// ask change nothing either: their replies are read off the run before them. A download that is paused or removed
    /// while it is active loses its claims, as all do at a Shutdown, and with them what these gave of pieces that one
    /// mirror is to give whole. Want of memory also comes where the run has had the most events. After an Err all is as
    /// before, but for room.
    pub fn apply_call(
        &mut self,
        alloc: Global,
        session: u32,
        call: Call,
        now: Moment,
    ) -> Result<Applied, AllocError>
        requires lawful { IsLawful call }
        requires later { IsLaterThan self.old.past now }
        ensures event { OnOk result (Appends self.old self.new
            (λ e. e ≡ event.Called session call now)) }
        ensures answer { IfOk result (λ applied.
            applied ≡ applied_by self.old.start self.old.past call) }
        ensures same { OnErr result (IsRoomierRun self.old self.new) }
        ensures room { self.old.spare ≤ self.new.spare }
        ensures mark_room { (gid : Gid) → mark_spare_in self.old gid ≤ mark_spare_in self.new gid }
    {
        let place = self.journal.len() as usize;
        self.journal.reserve_one()?;
        let applied = apply(
            alloc,
            self.gids,
            place,
            &mut self.queue,
            &mut self.entries,
            &mut self.global,
            &mut self.shut,
            &call,
        )?;
        self.journal.add(Event::Called { session, call, now });
        Ok(applied)
    }

    /// Blocks of a claim that stands come, all of them open in it.
    pub fn landed(&mut self, claim: u64, run: Run, now: Moment)
        requires legal { IsNext self.old (IsLandingOf claim run now) }
        requires few { run.count ≤ 64 }
        requires room { 1 ≤ self.old.spare }
        ensures event { Appends self.old self.new (IsLandingOf claim run now) }
        ensures room { UsesRoom self.old self.new }
        ensures mark_room { self.new.mark_spares ≡ self.old.mark_spares }
    {
        plan_laws();
        histories_are_sound();
        accounts_match_events();
        steps_match_events();
        let (gid, granted) = self.claim(claim).unwrap();
        let mirror = granted.mirror;
        let place = self.place(gid).unwrap();
        self.entries[place].state.landed(run, mirror);
        self.journal.add(Event::Landed {
            gid,
            claim,
            mirror,
            run,
            now,
        });
    }

    /// The blocks of a piece go.
    pub fn cleared(&mut self, gid: Gid, piece: u32)
        requires legal { MayFollow self.old.start self.old.past (event.Cleared gid piece) }
        requires room { 1 ≤ self.old.spare }
        ensures event { Appends self.old self.new (λ e. e ≡ event.Cleared gid piece) }
        ensures room { UsesRoom self.old self.new }
        ensures mark_room { self.new.mark_spares ≡ self.old.mark_spares }
    {
        plan_laws();
        histories_are_sound();
        accounts_match_events();
        steps_match_events();
        let place = self.place(gid).unwrap();
        self.entries[place].state.cleared(piece);
        self.journal.add(Event::Cleared { gid, piece });
    }

    /// The progress of a download is saved.
    pub fn saved(&mut self, gid: Gid, now: Moment)
        requires legal { MayFollow self.old.start self.old.past (event.Saved gid now) }
        requires room { 1 ≤ self.old.spare }
        ensures event { Appends self.old self.new (λ e. e ≡ event.Saved gid now) }
        ensures room { UsesRoom self.old self.new }
        ensures mark_room { self.new.mark_spares ≡ self.old.mark_spares }
    {
        plan_laws();
        histories_are_sound();
        accounts_match_events();
        steps_match_events();
        let place = self.place(gid).unwrap();
        self.entries[place].state.saved(now);
        self.journal.add(Event::Saved { gid, now });
    }

    /// The whole payload of a download is found right or wrong.
    pub fn checked(&mut self, gid: Gid, right: bool)
        requires legal { MayFollow self.old.start self.old.past (event.Checked gid right) }
        requires room { 1 ≤ self.old.spare }
        ensures event { Appends self.old self.new (λ e. e ≡ event.Checked gid right) }
        ensures room { UsesRoom self.old self.new }
        ensures mark_room { self.new.mark_spares ≡ self.old.mark_spares }
    {
        plan_laws();
        histories_are_sound();
        accounts_match_events();
        steps_match_events();
        let place = self.place(gid).unwrap();
        self.entries[place].state.checked(right);
        self.journal.add(Event::Checked { gid, right });
    }

    /// A full piece that isn't verified is found right or wrong.
    pub fn settled(&mut self, gid: Gid, piece: u32, right: bool)
        requires legal { IsNext self.old (IsFindingOf gid piece right) }
        requires room { 1 ≤ self.old.spare }
        requires mark_room { right ≡ false → 1 ≤ mark_spare_in self.old gid }
        ensures event { Appends self.old self.new (IsFindingOf gid piece right) }
        ensures room { UsesRoom self.old self.new }
        ensures mark_room { UsesMarkRoomOf self.old self.new gid }
    {
        plan_laws();
        histories_are_sound();
        accounts_match_events();
        steps_match_events();
        let place = self.place(gid).unwrap();
        let giver = self.entries[place].state.settled(piece, right);
        self.journal.add(Event::Settled {
            gid,
            piece,
            right,
            giver,
        });
    }

    /// A claim that stands fails, at its first open block; a probe at piece 0.
    pub fn lost(&mut self, claim: u64, mark: Mark)
        requires legal { IsNext self.old (IsLossOfClaim claim mark) }
        requires room { 1 ≤ self.old.spare }
        requires mark_room { HasMarkRoomAt self.old claim }
        ensures event { Appends self.old self.new (IsLossOfClaim claim mark) }
        ensures room { UsesRoom self.old self.new }
        ensures mark_room { UsesMarkRoomAt self.old self.new claim }
    {
        plan_laws();
        histories_are_sound();
        accounts_match_events();
        steps_match_events();
        let (gid, granted) = self.claim(claim).unwrap();
        let mirror = granted.mirror;
        let place = self.place(gid).unwrap();
        let piece = self.entries[place].state.first_piece(claim);
        self.entries[place].state.lost(claim, mirror, piece, mark);
        self.journal.add(Event::Lost {
            gid,
            claim,
            mirror,
            piece,
            mark,
        });
    }

    /// A probe that stands tells the length of its payload, in bytes.
    pub fn sized(&mut self, claim: u64, total: u64)
        requires legal { IsNext self.old (IsSizingBy claim total) }
        requires room { 1 ≤ self.old.spare }
        ensures event { Appends self.old self.new (IsSizingBy claim total) }
        ensures room { UsesRoom self.old self.new }
        ensures mark_room { self.new.mark_spares ≡ self.old.mark_spares }
    {
        plan_laws();
        histories_are_sound();
        accounts_match_events();
        steps_match_events();
        unopened_accounts_are_alike();
        let (gid, _) = self.claim(claim).unwrap();
        let place = self.place(gid).unwrap();
        self.entries[place].state.sized(claim, total);
        self.journal.add(Event::Sized { gid, claim, total });
    }

    /// A download ends.
    pub fn ended(&mut self, gid: Gid, end: End)
        requires legal { MayFollow self.old.start self.old.past (event.Ended gid end) }
        requires room { 1 ≤ self.old.spare }
        ensures event { Appends self.old self.new (λ e. e ≡ event.Ended gid end) }
        ensures room { UsesRoom self.old self.new }
        ensures mark_room { self.new.mark_spares ≡ self.old.mark_spares }
    {
        plan_laws();
        histories_are_sound();
        accounts_match_events();
        steps_match_events();
        let place = self.place(gid).unwrap();
        let _ = self.queue.stop(gid, end.status());
        self.entries[place].state.halted(true);
        self.journal.add(Event::Ended { gid, end });
    }

    /// The run stops: no claim stands any more.
    pub fn stopped(&mut self)
        requires { MayFollow self.old.start self.old.past event.Stopped }
        ensures event { Appends self.old self.new (λ e. e ≡ event.Stopped) }
        ensures room { self.new.spare ≡ self.old.spare }
        ensures mark_room { self.new.mark_spares ≡ self.old.mark_spares }
    {
        halt_all(&mut self.entries);
        self.stopped = true;
        self.journal.add(Event::Stopped);
    }

    /// A door of the console closed.
    pub fn left(&mut self)
        requires { MayFollow self.old.start self.old.past event.Left }
        ensures event { Appends self.old self.new (λ e. e ≡ event.Left) }
        ensures room { self.new.spare ≡ self.old.spare }
        ensures mark_room { self.new.mark_spares ≡ self.old.mark_spares }
    {
        self.left += 1;
        self.journal.add(Event::Left);
    }

    /// Makes room for the events of a turn, and for as many marks of each active download. Want of memory also comes where
    /// the run has had too many events for one more turn.
    pub fn reserve_turn(&mut self) -> Result<(), AllocError>
        ensures room { OnOk result (TURN_EVENTS ≤ self.new.spare) }
        ensures mark_room { OnOk result (HasTurnMarkRoom self.new) }
        ensures few { OnOk result (length self.old.past ≤ MAX_BEFORE_TURN) }
        ensures same { IsRoomierRun self.old self.new }
    {
        if self.journal.len() > MAX_BEFORE_TURN {
            return Err(AllocError);
        }
        // The doors and the stop have room of their own.
        self.journal
            .reserve(TURN_EVENTS as usize + self.doors as usize + 1)?;
        reserve_marks(&self.queue, &mut self.entries)
    }

    // ---- reads

    /// Whether a claim stands under a number.
    pub fn stands(&self, id: u64) -> bool
        ensures { MatchBool result (StandsSomewhere self.now id) (StandsNowhere self.now id) }
    {
        match self.claim(id) {
            Some(_) => true,
            None => false,
        }
    }

    /// The first block that is open in the claim that stands under a number: none of a probe, and where none stands.
    pub fn first_open(&self, id: u64) -> Option<u32>
        ensures { IsFirstOpen self.now id result }
    {
        plan_laws();
        histories_are_sound();
        accounts_match_events();
        steps_match_events();
        let entries = &self.entries;
        let (gid, _) = self.claim(id)?;
        let place = self.place(gid)?;
        entries[place].state.first_open(id)
    }

    /// What a download has of its payload, once it is opened.
    pub fn table(&self, gid: Gid) -> Option<&Table>
        ensures some { IfSome result (λ table. table.now ≡ (account_of_gid self.now gid).progress) }
        ensures opened { IfSome result (λ _.
            is_opened (own_of self.now.start self.now.past gid) ≡ true) }
        ensures none { is_added_in self.now gid ≡ true
            → IfNone result (is_opened (own_of self.now.start self.now.past gid) ≡ false) }
    {
        plan_laws();
        histories_are_sound();
        accounts_match_events();
        steps_match_events();
        let place = self.place(gid)?;
        self.entries[place].state.table()
    }

    /// The options of a download, as they are now.
    pub fn options(&self, gid: Gid) -> Option<&Options>
        ensures { option_copied result
            ≡ option_map (options_now self.now.start self.now.past)
            (download_in self.now.start self.now.past gid) }
    {
        let place = self.place(gid)?;
        Some(&self.entries[place].options)
    }

    /// The global options, as they are now.
    pub fn global(&self) -> &Options
        ensures { result.now ≡ (replay_of self.now.start self.now.past).global }
    {
        &self.global
    }

    /// The moment of the last save of a download, or of its opening where there is none.
    pub fn saved_at(&self, gid: Gid) -> Option<Moment>
        ensures { is_added_in self.now gid ≡ true → result ≡ (account_of_gid self.now gid).saved }
    {
        let place = self.place(gid)?;
        self.entries[place].state.saved_at()
    }

    /// The status of a download that stands in one of the queue's lists.
    pub fn status(&self, gid: Gid) -> Option<Status>
        ensures { result ≡ status_of (queue_in self.now.start self.now.past) gid }
    {
        match self.queue.status(gid) {
            Ok(status) => Some(status),
            Err(_) => None,
        }
    }

    /// Whether the run stopped.
    pub fn has_stopped(&self) -> bool
        ensures { result ≡ list_any is_stop self.now.past }
    {
        self.stopped
    }

    /// How many doors of the console stand.
    pub fn doors(&self) -> u16
        ensures { result ≡ doors_left self.now.start self.now.past }
    {
        self.doors.saturating_sub(self.left)
    }

    /// The active downloads, in the order in which they became active.
    pub fn active(&self) -> ActiveGids<'_>
        ensures { result ≡ (queue_in self.now.start self.now.past).active }
    {
        self.queue.active()
    }

    /// The n-th download that was added, from 0, and the place in the journal of the call that added it.
    pub fn added(&self, n: u32) -> Option<(Gid, u32)>
        ensures found { IfSome result (λ adding. IsAdding self.now n adding.0 adding.1) }
        ensures none { IfNone result (length (downloads_in self.now) ≤ n) }
    {
        let entry = self.entries.get(n as usize)?;
        Some((entry.gid, self.journal.number(entry.called)))
    }

    /// Whether the last save of a download that is opened, or its opening where there is none, lists a block of a piece.
    pub fn lists(&self, gid: Gid, piece: u32) -> bool
        requires opened { IsOpenedGid self.now gid }
        requires piece { IsPieceOfGid self.now gid piece }
        ensures { (result ≡ false) ↔ IsPieceUnlisted self.now gid piece }
    {
        plan_laws();
        histories_are_sound();
        accounts_match_events();
        steps_match_events();
        let entries = &self.entries;
        let place = self.place(gid).unwrap();
        entries[place].state.lists(piece)
    }

    /// Whether a save of a download that is opened would list other pieces or blocks than the last one does.
    pub fn unsaved(&self, gid: Gid) -> bool
        requires opened { IsOpenedGid self.now gid }
        ensures { (result ≡ false) ↔ IsAllSaved self.now gid }
    {
        plan_laws();
        histories_are_sound();
        accounts_match_events();
        steps_match_events();
        let entries = &self.entries;
        let place = self.place(gid).unwrap();
        entries[place].state.is_unsaved()
    }

    /// The last mark of a piece for which no mirror of the download has a try left.
    pub fn dead(&self, gid: Gid, piece: u32) -> Option<Mark>
        ensures found { IfSome result (IsDeadPiece self.now gid piece) }
        ensures none { IfNone result (HasNoDeadMark self.now gid piece) }
    {
        counting_is_stable();
        let place = self.place(gid)?;
        let marks = self.entries[place].state.marks();
        if marks.dead(piece) {
            marks.last_mark(piece)
        } else {
            None
        }
    }

    /// Whether nothing is left to do: a Shutdown or the stop came, or no door stands, no download is active and each that
    /// waits is paused.
    pub fn finished(&self) -> bool
        ensures { result ≡ is_finished_in self.now.start self.now.past }
    {
        self.shut || self.stopped || self.doors() == 0 && is_at_rest(&self.queue)
    }
}
