// What a desk serves.
ghost use Rattle.std.specs.Prelude.{◌≡◌, List};
ghost use Rattle.turn_desk.specs.declared.turn.Turn.{Turn};
ghost use Rattle.turn_desk.specs.declared.turn.Stamp.{Stamp};
ghost use Rattle.turn_desk.specs.Turns.{IsLater, StartsWith, ServesTurn};

/// A state that changes by turns alone.
pub trait Served {
    type Start;

    type Op;

    type Answer;

    type Entry;

    /// The operations that may be asked for.
    ghost is_lawful: { Self.Op → Type 0 };

    /// What no turn changes.
    ghost start: { Self → Self.Start };

    /// What turns append to.
    ghost entries: { Self → List Self.Entry };

    ghost mark: { Self → Stamp };

    /// What the turn behind these turns may be, from this start.
    ghost relates: { Self.Start → List (Turn Self.Op Self.Answer Self.Entry)
        → Turn Self.Op Self.Answer Self.Entry → Type 0 };

    /// The state after these turns, as far as they tell it.
    ghost stands: { Self → List (Turn Self.Op Self.Answer Self.Entry) → Type 0 };

    fn serve(&mut self, op: Self::Op) -> Self::Answer
        requires { is_lawful op }
        ensures start { start self.new ≡ start self.old }
        ensures entries { StartsWith (entries self.new) (entries self.old) }
        ensures mark { IsLater (mark self.old) (mark self.new) }
        ensures turn { ServesTurn relates stands start entries mark self.old op result self.new };
}
