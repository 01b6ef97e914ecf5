// Who takes turns.
ghost use Rattle.std.specs.Prelude.{◌≡◌};
ghost use Rattle.turn_desk.specs.declared.turn.Sight.{Sight};
ghost use Rattle.turn_desk.specs.Sights.{DeskId, Took};

use crate::served::Served;

/// Takes turns of a state that others may share.
pub trait Desk<S: Served> {
    ghost sight: { Self → Sight S.Start S.Op S.Answer S.Entry };

    /// Which desk it is, so that a pass which leaves a chair is known to be of the same desk.
    ghost desk_id: { Self → DeskId };

    fn turn(&mut self, op: S::Op) -> S::Answer
        requires { S.is_lawful op }
        ensures took { Took S.relates (sight self.old) op result (sight self.new) }
        ensures desk_id { desk_id self.new ≡ desk_id self.old };
}
