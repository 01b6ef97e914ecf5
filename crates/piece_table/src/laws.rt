// What a table keeps, over every list of changes.
ghost use Rattle.std.specs.Prelude.{ℕ, Bool, List, All};
ghost use Rattle.dl_kinds.specs.Plan.{IsPlan};
ghost use Rattle.piece_table.specs.Afresh.{IsAfresh, IsWithin, after_changes};
ghost use Rattle.piece_table.specs.Changes.{Change};
ghost use Rattle.piece_table.specs.Progress.{IsStart};
ghost use Rattle.piece_table.specs.Steps.{started};

/// Whatever lands, is settled, cleared and made sole: the landed blocks, their givers and the verified, sole and last
/// wrong pieces that the calls keep are those that the list of it all says.
pub fn kept_is_afresh()
    ensures { (total piece_len : ℕ) (verified landed : List Bool) (changes : List Change)
        → IsPlan total piece_len → IsStart total piece_len verified landed
        → All (IsWithin total piece_len) changes
        → IsAfresh total piece_len verified landed changes
        (after_changes (started total piece_len verified landed) changes) }
{}
