// Who takes part in the desk of a run.
ghost use Rattle.std.specs.Prelude.{◌≡◌, ◌≤◌, ◌<◌, ◌+◌, ◌^◌, [], length, vec_capacity};
ghost use Rattle.desk_participants.specs.Seats.{AreBack, AreDone, last_for, participants_from, rest_for};

/// Who takes part in the desk of a run, with a link or a door: its number among those of its kind, its pass, its edge to the
/// outside with a clock, and what came of it.
pub struct Participant<P, X, K, Y> {
    pub number: u32,
    pub pass: Option<P>,
    pub edge: X,
    pub clock: K,
    pub came: Option<Y>,
}

/// The last passes take the edges, each the one of its number.
pub fn seat_all<P, X, K, Y>(
    passes: &mut Vec<P>,
    edges: &mut Vec<(X, K)>,
    seats: &mut Vec<Participant<P, X, K, Y>>,
)
    requires few { length edges.old.items < 2 ^ 32 }
    requires enough { length edges.old.items ≤ length passes.old.items }
    requires none { seats.old.items ≡ [] }
    requires room { length edges.old.items ≤ vec_capacity seats.old }
    ensures seated { seats.new.items
        ≡ participants_from 0 (last_for edges.old.items passes.old.items) edges.old.items }
    ensures rest { passes.new.items ≡ rest_for edges.old.items passes.old.items }
    ensures none { edges.new.items ≡ [] }
    ensures passes { vec_capacity passes.new ≡ vec_capacity passes.old }
    ensures edges { vec_capacity edges.new ≡ vec_capacity edges.old }
{
    while let Some((edge, clock)) = edges.pop() {
        let Some(pass) = passes.pop() else {
            unreachable!()
        };
        seats.push_reserved(Participant {
            number: edges.len() as u32,
            pass: Some(pass),
            edge,
            clock,
            came: None,
        });
    }
    seats.reverse();
}

/// Gives back the passes and the edges, and what came of those who took part, in their order.
pub fn unseat_all<P, X, K, Y>(
    mut seats: Vec<Participant<P, X, K, Y>>,
    passes: &mut Vec<P>,
    edges: &mut Vec<(X, K)>,
    came: &mut Vec<Y>,
)
    requires done { AreDone seats.items }
    requires none { (edges.old.items ≡ []) × (came.old.items ≡ []) }
    requires passes { length passes.old.items + length seats.items ≤ vec_capacity passes.old }
    requires edges { length seats.items ≤ vec_capacity edges.old }
    requires came { length seats.items ≤ vec_capacity came.old }
    ensures back { AreBack seats.items passes.old.items
        passes.new.items edges.new.items came.new.items }
    ensures passes { vec_capacity passes.new ≡ vec_capacity passes.old }
{
    seats.reverse();
    while let Some(participant) = seats.pop() {
        let Participant {
            number: _,
            pass,
            edge,
            clock,
            came: its,
        } = participant;
        let Some(pass) = pass else { unreachable!() };
        let Some(its) = its else { unreachable!() };
        passes.push_reserved(pass);
        edges.push_reserved((edge, clock));
        came.push_reserved(its);
    }
    seats.destroy_empty();
}
