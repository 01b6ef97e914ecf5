// What a crash leaves of downloads, whatever the steps of the store.
ghost use Rattle.durable_progress.specs.HeldLaws.{HeldGive, OpenedAreHeld, SavesHold, SavedAreHeld, HeldLackRuns, WritesHold, WritesElsewhereHold, FinishesHold, SameHold};
ghost use Rattle.durable_progress.specs.PromiseLaws.{SavedAreListed, PromisedAreListed, ListedPiecesStay, HeldGivePromised, FinishedStandWhole, ListingsGivePromised, PromisesStay, SameKeepPromises};
ghost use Rattle.durable_progress.specs.SharingLaws.{FilesStayBeside, LengthsStayBeside, GiveSameBeside, SoundBeside, AgreeBeside};

use control_file::control_files_are_read;
use dl_history::histories_are_sound;
use dl_kinds::plan_laws;

/// What happens to the files of one want is nothing to a want that shares no name with it.
pub fn wants_are_apart()
    ensures files { FilesStayBeside }
    ensures lengths { LengthsStayBeside }
    ensures give { GiveSameBeside }
    ensures sound { SoundBeside }
    ensures agree { AgreeBeside }
{}

/// Every image of an opened download has the control file of its last save beside whole files, or, within a save, of the
/// one that is made; a write of blocks that aren't listed leaves that so; after a finish the payload stands alone.
pub fn steps_hold()
    ensures give { HeldGive }
    ensures opened { OpenedAreHeld }
    ensures saves { SavesHold }
    ensures saved { SavedAreHeld }
    ensures lack { HeldLackRuns }
    ensures writes { WritesHold }
    ensures elsewhere { WritesElsewhereHold }
    ensures finishes { FinishesHold }
    ensures same { SameHold }
{
    plan_laws();
    control_files_are_read();
}

/// So each image gives what the saves of its download promise, or the payload stands whole.
pub fn promises_are_kept()
    ensures pieces { SavedAreListed }
    ensures blocks { PromisedAreListed }
    ensures stay { ListedPiecesStay }
    ensures held { HeldGivePromised }
    ensures listings { ListingsGivePromised }
    ensures longer { PromisesStay }
    ensures finished { FinishedStandWhole }
    ensures same { SameKeepPromises }
{
    histories_are_sound();
    control_files_are_read();
}
