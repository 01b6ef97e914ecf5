// How fast downloads of a run may go.
ghost use Rattle.std.specs.Prelude.{◌<◌, ◌^◌};

use crate::calls::change_call;
use crate::rig::Rig;
use dl_kinds::{GID_DIGITS, Gid, GidKey};
use machine_core::Applied;
use option_set::{Num, Setting};
use rate_tokens::Take;
use std::alloc::{AllocError, Global};

/// A rate by an option, in bytes a second.
pub(crate) fn as_rate(value: u64) -> u64
    ensures { result < 2 ^ 32 }
{
    value.min(u32::MAX as u64)
}

impl Rig {
    // The rate of a download by its options.
    pub(crate) fn rate(&self, gid: Gid) -> u64
        ensures { result < 2 ^ 32 }
    {
        let rate = match self.machine.options(gid) {
            Some(options) => options.number(Num::MaxDownloadLimit),
            None => 0,
        };
        as_rate(rate)
    }

    /// An option of a download changes, where it may, and its bucket goes at the rate of its options from now on.
    pub fn change(
        &mut self,
        alloc: Global,
        gid: Gid,
        setting: Setting,
    ) -> Result<Option<Applied>, AllocError> {
        let key = GidKey {
            digits: GID_DIGITS,
            value: gid.0,
        };
        let call = change_call(alloc, key, setting)?;
        let applied = self.call(alloc, call)?;
        let rate = self.rate(gid);
        if let Some(place) = self.machine.place(gid)
            && place < self.limits.len()
        {
            self.limits.set_own(place, rate, self.now);
        }
        Ok(applied)
    }

    /// The worker of a claim that stands may receive bytes, at most so many. None comes where it doesn't stand.
    pub fn allow(&mut self, claim: u64, want: u32) -> Option<Take> {
        let (gid, _) = self.machine.claim(claim)?;
        let place = self.machine.place(gid)?;
        if want == 0 || place >= self.limits.len() {
            return None;
        }
        Some(self.limits.take(place, want, self.now))
    }
}
