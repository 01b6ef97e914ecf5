// The opening of downloads.
ghost use Rattle.std.specs.Prelude.{◌≡◌, ◌≤◌, IfNone, IfOk, IfSome, OnErr, OnOk, Some, option_copied, slice_get};
ghost use Rattle.dl_kinds.specs.Plan.{IsPlan};
ghost use Rattle.option_set.specs.Files.{IsFileList};
ghost use Rattle.machine_core.specs.MachineViews.{Appends};
ghost use Rattle.machine_core.specs.Openings.{HasPlan, IsToOpen, landed_bytes_of, lengths_of_plan, lengths_with, meta_of_event, wanted_of_gid, wanted_with};
ghost use Rattle.machine_core.specs.OwnParts.{PayloadLengths};
ghost use Rattle.machine_core.specs.Reads.{IsOpenedGid, IsPieceOfGid};
ghost use Rattle.machine_core.specs.RunLegal.{MayFollow};
ghost use Rattle.machine_core.specs.TurnRooms.{IsRoomierRun};
ghost use Rattle.machine_core.specs.declared.events.Event.TheVariants as event;

use crate::{Call, Event, Machine};
use bit_rows::BitRow;
use control_file::Opened;
use dl_history::{accounts_match_events, histories_are_sound};
use dl_kinds::{Gid, Moment, Plan, plan_laws};
use file_choice::{all_wanted, wanted_row};
use metainfo::Meta;
use one_download::steps_match_events;
use option_set::{Num, Word};
use std::alloc::{AllocError, Global};

// Where a download is kept, its plan, and the pieces of it that are wanted.
#[derive(Drop)]
struct ToOpen {
    place: usize,
    plan: Plan,
    wanted: BitRow,
}

// The metainfo file that an event adds a download of.
pub(crate) fn meta_of(event: &Event) -> Option<&Meta>
    ensures { option_copied result ≡ meta_of_event event.now }
{
    match event {
        Event::Called {
            call: Call::AddTorrent { meta, .. },
            ..
        } => Some(meta),
        _ => None,
    }
}

// The plan of a metainfo file, or without one that of the length that a probe told.
pub(crate) fn plan_with(meta: Option<&Meta>, piece_len: u32, told: Option<u64>) -> Option<Plan>
    ensures found { IfSome result (λ plan.
        lengths_with (option_copied meta.entry) piece_len told ≡ Some (lengths_of_plan plan)) }
    ensures none { IfNone result ((lengths : PayloadLengths)
        → lengths_with (option_copied meta.entry) piece_len told ≡ Some lengths
        → IsPlan lengths.total lengths.piece_len → ⊥) }
{
    match meta {
        Some(meta) => Some(meta.plan),
        None => Plan::new(told?, piece_len),
    }
}

// The pieces that are wanted: without a metainfo file, all of them.
fn wanted_by_plan(
    alloc: Global,
    meta: Option<&Meta>,
    plan: &Plan,
    select: Option<&str>,
) -> Result<BitRow, AllocError>
    requires { IfSome select (λ text. IsFileList text.now) }
    ensures { IfOk result (λ row. row ≡ wanted_with (option_copied meta.entry)
        (option_copied select.entry) plan.now.total plan.now.piece_len) }
{
    match meta {
        Some(meta) => wanted_row(alloc, &meta.layout, plan, select),
        None => all_wanted(alloc, plan),
    }
}

impl Machine {
    fn to_open(&self, alloc: Global, gid: Gid) -> Result<ToOpen, AllocError>
        requires { HasPlan self.now gid }
        ensures { IfOk result (λ found. IsToOpen self.now gid found.place found.plan found.wanted) }
    {
        plan_laws();
        histories_are_sound();
        accounts_match_events();
        steps_match_events();
        let place = self.place(gid).unwrap();
        let entry = &self.entries[place];
        let begun = self.queue.options(gid).unwrap();
        let meta = meta_of(self.adding_event(place));
        let piece_len = begun.number(Num::PieceLength) as u32;
        let plan = plan_with(meta, piece_len, entry.state.told()).unwrap();
        let wanted = wanted_by_plan(alloc, meta, &plan, begun.text(Word::SelectFile))?;
        Ok(ToOpen {
            place,
            plan,
            wanted,
        })
    }

    /// A download is opened with the pieces that are verified and the blocks that have landed. It takes the memory of its
    /// event and of the rows first, so that after an Err all is as before but for room.
    pub fn opened(
        &mut self,
        alloc: Global,
        gid: Gid,
        opened: Opened,
        now: Moment,
    ) -> Result<(), AllocError>
        requires { MayFollow self.old.start self.old.past
            (event.Opened gid opened.verified opened.blocks now) }
        ensures event { OnOk result (Appends self.old self.new
            (λ e. e ≡ event.Opened gid opened.verified opened.blocks now)) }
        ensures same { OnErr result (IsRoomierRun self.old self.new) }
        ensures room { self.old.spare ≤ self.new.spare }
        ensures mark_room { self.new.mark_spares ≡ self.old.mark_spares }
    {
        plan_laws();
        histories_are_sound();
        accounts_match_events();
        steps_match_events();
        let ToOpen {
            place,
            plan,
            wanted,
        } = self.to_open(alloc, gid)?;
        let Opened { verified, blocks } = opened;
        self.journal.reserve_one()?;
        self.entries[place]
            .state
            .open(alloc, plan, &verified, &blocks, wanted, now)?;
        self.journal.add(Event::Opened {
            gid,
            verified,
            blocks,
            now,
        });
        Ok(())
    }

    /// Whether a piece of a download that is opened is wanted.
    pub fn is_wanted(&self, gid: Gid, piece: u32) -> bool
        requires opened { IsOpenedGid self.now gid }
        requires piece { IsPieceOfGid self.now gid piece }
        ensures { slice_get (wanted_of_gid self.now gid) piece ≡ Some result }
    {
        plan_laws();
        histories_are_sound();
        accounts_match_events();
        steps_match_events();
        let entries = &self.entries;
        let place = self.place(gid).unwrap();
        entries[place].state.is_wanted(piece)
    }

    /// The bytes of the landed blocks of a download: 0 before its opening, and of one that wasn't added.
    pub fn landed_bytes(&self, gid: Gid) -> u64
        ensures { result ≡ landed_bytes_of self.now gid }
    {
        plan_laws();
        histories_are_sound();
        accounts_match_events();
        steps_match_events();
        let entries = &self.entries;
        let Some(place) = self.place(gid) else {
            return 0;
        };
        match entries[place].state.table() {
            Some(table) => table.completed(),
            None => 0,
        }
    }
}
