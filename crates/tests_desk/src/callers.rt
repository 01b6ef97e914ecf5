// A caller of any desk.
ghost use Rattle.std.specs.Prelude.{◌≡◌};
ghost use Rattle.tests_desk.specs.Callers.{TookEach};

use turn_desk::{Desk, Served, own_turns_are_placed, turns_add_up};

/// Takes so many turns of one operation, at any desk of any state. They are all turns that the caller took,
/// and each stands at its place.
pub fn repeat<S: Served<Op = u64>, T: Desk<S>>(desk: &mut T, op: u64, times: u32)
where
    S::Answer: Drop,
    requires lawful { S.is_lawful op }
    ensures took { TookEach S.relates (T.sight desk.old) op times (T.sight desk.new) }
    ensures desk_id { T.desk_id desk.new ≡ T.desk_id desk.old }
{
    own_turns_are_placed::<S>();
    turns_add_up::<S>();
    for _ in 0..times {
        desk.turn(op);
        turns_add_up::<S>();
    }
}
