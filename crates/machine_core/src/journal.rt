// What happened in a run.
ghost use Rattle.std.specs.Prelude.{◌≡◌, ◌<◌, ◌≤◌, ◌+◌, ◌-◌, ◌∷◌, ◌++◌, [], length, OnOk, OnErr, option_copied, slice_get, vec_len, vec_capacity};
ghost use Rattle.machine_core.specs.KeptOffers.{is_torrent_at};
ghost use Rattle.machine_core.specs.declared.journal.TheConstants.{MAX_EVENTS};

use crate::{Call, Event};
use std::alloc::{AllocError, Global};

/// The most events of a run.
pub const MAX_EVENTS: usize = 4_294_967_295;

/// The most events of a turn.
pub const TURN_EVENTS: u32 = 256;

/// No turn begins once more events than this came.
pub const MAX_BEFORE_TURN: u32 = 4_294_800_000;

/// What happened in a run, in the order in which it happened.
#[derive(Debug, Drop)]
pub struct Journal {
    events: Vec<Event>,
    // For so many more events room was asked. Memory is taken in larger parts.
    room: usize,
    ghost few: { vec_len events + room ≤ MAX_EVENTS },
    ghost fits: { vec_len events + room ≤ vec_capacity events },
}

impl Journal {
    ghost use Rattle.machine_core.specs.Journals.{room_in};

    /// One in which nothing happened.
    pub fn new(alloc: Global) -> Self
        ensures { result.events.items ≡ [] }
    {
        Journal {
            events: Vec::new(alloc),
            room: 0,
        }
    }

    /// How many events came.
    pub fn len(&self) -> u32
        ensures { result ≡ length self.now.events.items }
    {
        self.events.len() as u32
    }

    /// The event at a place, counted from 0.
    pub fn get(&self, place: u32) -> Option<&Event>
        ensures { option_copied result ≡ slice_get self.now.events.items place }
    {
        self.events.get(place as usize)
    }

    /// The place of an event, counted from 0.
    pub(crate) fn number(&self, place: usize) -> u32
        requires { place < length self.now.events.items }
        ensures { result ≡ place }
    {
        place as u32
    }

    /// Whether the event at a place adds a download with a metainfo file.
    pub(crate) fn is_torrent_at(&self, place: usize) -> bool
        ensures { result ≡ is_torrent_at self.now.events.items place }
    {
        match self.events.get(place) {
            Some(
                Event::Called {
                    call: Call::AddTorrent { .. },
                    ..
                },
            ) => true,
            _ => false,
        }
    }

    /// Makes room for `more` more events in all; want of memory also comes where these would be too many.
    pub(crate) fn reserve(&mut self, more: usize) -> Result<(), AllocError>
        requires few { more ≤ MAX_EVENTS }
        ensures same { self.new.events.items ≡ self.old.events.items }
        ensures ok { OnOk result (more ≤ room_in self.new) }
        ensures room { room_in self.old ≤ room_in self.new }
    {
        if more > MAX_EVENTS - self.events.len() {
            return Err(AllocError);
        }
        self.events.reserve(more)?;
        self.room = self.room.max(more);
        Ok(())
    }

    /// Makes room for one event more than there is room for. Want of memory also comes where these would be too many.
    pub(crate) fn reserve_one(&mut self) -> Result<(), AllocError>
        ensures same { self.new.events.items ≡ self.old.events.items }
        ensures ok { OnOk result (room_in self.old + 1 ≤ room_in self.new) }
        ensures room { room_in self.old ≤ room_in self.new }
    {
        if self.room >= MAX_EVENTS - self.events.len() {
            return Err(AllocError);
        }
        self.reserve(self.room + 1)
    }

    /// An event comes.
    pub(crate) fn add(&mut self, event: Event)
        requires { 1 ≤ room_in self.old }
        ensures events { self.new.events.items ≡ self.old.events.items ++ event ∷ [] }
        ensures room { room_in self.new ≡ room_in self.old - 1 }
    {
        self.events.push_reserved(event);
        self.room -= 1;
    }
}
