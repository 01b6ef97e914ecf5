// Laws of what callers of a desk know. They do nothing when they run.
ghost use Rattle.std.specs.Prelude.{◌≡◌};
ghost use Rattle.turn_desk.specs.Laws.{NoTurnsChangeNothing, OneTurnGoes, TurnsAddUp, OwnTurnsArePlaced, RankZeroIsFirst, OwnPlacesAscend, EachTurnHasOnePass};

use crate::served::Served;
use crate::solo::SoloDesk;

/// How the turns of a caller make up what it went through: none, one, and some behind others.
pub fn turns_add_up<S: Served>()
    ensures none { NoTurnsChangeNothing S.relates }
    ensures one { OneTurnGoes S.relates }
    ensures more { TurnsAddUp S.relates }
{}

/// Each turn of a caller meets the turn relation at its place among all turns, behind the caller's
/// earlier ones.
pub fn own_turns_are_placed<S: Served>()
    ensures { OwnTurnsArePlaced S.relates }
{}

/// An own turn of rank 0 is the first of all turns, and the places of a caller's own turns ascend.
pub fn own_turns_keep_their_order<S: Served>()
    ensures first { RankZeroIsFirst S.relates }
    ensures ascend { OwnPlacesAscend S.relates }
{}

/// Each turn of a desk that was closed stands in the own list of exactly one pass.
pub fn each_turn_has_one_pass<S: Served>()
    ensures { EachTurnHasOnePass S.relates }
{}

/// All turns of a desk of one owner are the owner's, under the number 0.
pub fn a_sole_owner_took_all<S: Served>(desk: &SoloDesk<S>)
    ensures own { desk.now.seen ≡ desk.now.own }
    ensures number { desk.now.number ≡ 0 }
{
    let _count = desk.taken;
}
