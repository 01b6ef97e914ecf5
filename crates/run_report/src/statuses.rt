// What is told of a download.
ghost use Rattle.std.specs.Prelude.{◌≡◌, IfOk};
ghost use Rattle.dl_kinds.specs.Plan.{pieces_of};
ghost use Rattle.run_report.specs.Ends.{AreEnds};
ghost use Rattle.run_report.specs.Statuses as spec;
ghost use Rattle.run_report.specs.Sums.{AreSpeeds};
ghost use Rattle.run_report.specs.Told.{lengths_told, own_told};

use crate::StatusView;
use crate::ends::{Ends, error_message, told_code};
use crate::speeds::Speeds;
use crate::told::{Told, hex_text};
use dl_kinds::{Moment, Status, Text};
use machine_core::accounts_match_runs;
use std::alloc::{AllocError, Global};

impl<'a> Told<'a> {
    // The verified pieces, once it is opened.
    fn bitfield(&self, alloc: Global) -> Result<Option<Text>, AllocError>
        ensures { IfOk result (λ text.
            text ≡ spec.bitfield_text (lengths_told self.now) (own_told self.now)) }
    {
        accounts_match_runs();
        let _ = self.machine.journal();
        match self.machine.table(self.gid) {
            Some(table) => Ok(Some(hex_text(alloc, table.verified().bytes())?)),
            None => Ok(None),
        }
    }

    fn num_pieces(&self) -> u64
        ensures { result
            ≡ pieces_of (lengths_told self.now).total (lengths_told self.now).piece_len }
    {
        match self.machine.lengths(self.gid) {
            Some(lengths) => lengths.total.div_ceil(lengths.piece_len as u64),
            None => 0,
        }
    }

    fn status(&self) -> Status
        ensures { result ≡ spec.status_in self.now.machine.start self.now.machine.past
            self.now.download.gid }
    {
        match self.machine.status(self.gid) {
            Some(status) => status,
            None => Status::Removed,
        }
    }

    /// What is told of it at a moment.
    pub(crate) fn status_view(
        &self,
        alloc: Global,
        ends: &Ends,
        speeds: &Speeds,
        now: Moment,
    ) -> Result<StatusView, AllocError>
        requires ends { AreEnds ends.now self.now.machine.past }
        requires speeds { AreSpeeds speeds.now self.now.machine.start self.now.machine.past now }
        ensures { IfOk result (λ view. view ≡ spec.status_view self.now.machine.start
            self.now.machine.past now self.now.name self.now.download.gid self.now.download) }
    {
        let status = self.status();
        let code = ends.error_code(self.machine, self.gid, status);
        Ok(StatusView {
            bitfield: self.bitfield(alloc)?,
            completed_length: self.machine.landed_bytes(self.gid),
            connections: self.machine.standing(self.gid) as u64,
            dir: Text::of(alloc, self.folder())?,
            download_speed: speeds.speed(self.machine, self.gid, now),
            error_code: told_code(code),
            error_message: error_message(alloc, code)?,
            files: self.file_views(alloc)?,
            gid: self.gid,
            info_hash: self.info_hash(alloc)?,
            num_pieces: self.num_pieces(),
            piece_length: self.piece_length(),
            status,
            total_length: self.total_length(),
            upload_length: 0,
            upload_speed: 0,
        })
    }
}
