// Laws of what images give.
ghost use Rattle.resume_core.specs.Laws.{SameGiveTheSame, SameAreAsSound, SameAgree, SameReadAgrees, WrittenIsUsed, SavedGivesJust, SavedIsSound, SavedAgrees};
ghost use Rattle.resume_core.specs.StretchLaws.{StretchedKeepPieces, StretchedKeepBlocks, StretchedGiveTheSame, StretchedAreSound, StretchedAgree};
ghost use Rattle.resume_core.specs.RunLaws.{SoundListWithin, WholeListWithin, TornKeepPieces, TornKeepBlocks, TornGiveTheSame, TornAreSound, TornAgree};
ghost use Rattle.resume_core.specs.SaveLaws.{SavesGiveEither, SavesAreSound, SavesAgree, FinishedAreSound, FinishedAgree};

use control_file::control_files_are_read;
use dl_kinds::plan_laws;

/// What an image gives of a want depends on the want's own files alone. It does nothing when it runs.
pub fn same_files_give_the_same()
    ensures give { SameGiveTheSame }
    ensures sound { SameAreAsSound }
    ensures agree { SameAgree }
    ensures read { SameReadAgrees }
{}

/// An image with a new control file gives just what it lists. It does nothing when it runs.
pub fn saved_files_give_what_is_listed()
    ensures used { WrittenIsUsed }
    ensures just { SavedGivesJust }
    ensures sound { SavedIsSound }
    ensures agrees { SavedAgrees }
{
    control_files_are_read();
}

/// Where a control file stands, files that get their lengths, or are on the way to them, give at least what they gave. It
/// does nothing when it runs.
pub fn stretched_files_keep_what_is_given()
    ensures pieces { StretchedKeepPieces }
    ensures blocks { StretchedKeepBlocks }
    ensures same { StretchedGiveTheSame }
    ensures sound { StretchedAreSound }
    ensures agree { StretchedAgree }
{}

/// An image that is sound, or whose files have their lengths, lists nothing past the end of a file. It does nothing when
/// it runs.
pub fn images_list_within()
    ensures sound { SoundListWithin }
    ensures whole { WholeListWithin }
{}

/// A write of a run that an image doesn't give, whole or cut short, leaves what the image gives. It does nothing when it
/// runs.
pub fn torn_files_keep_what_is_given()
    ensures pieces { TornKeepPieces }
    ensures blocks { TornKeepBlocks }
    ensures same { TornGiveTheSame }
    ensures sound { TornAreSound }
    ensures agree { TornAgree }
{
    plan_laws();
}

/// An image within a save gives what it gave or what the save lists, as soundly. It does nothing when it runs.
pub fn saves_give_either()
    ensures give { SavesGiveEither }
    ensures sound { SavesAreSound }
    ensures agree { SavesAgree }
{
    control_files_are_read();
}

/// An image without a control file, beside the payload that the disk reads, is sound. It does nothing when it runs.
pub fn finished_files_are_sound()
    ensures sound { FinishedAreSound }
    ensures agree { FinishedAgree }
{}
