// The limits as numbers.
ghost use Rattle.std.specs.Prelude.{◌≡◌};
ghost use Rattle.aria_top.specs.declared.limits.TheConstants.{CONSOLE_DOORS};

/// How many doors a console has. It does nothing when it runs.
pub fn limits_are_told()
    ensures { CONSOLE_DOORS ≡ 4 }
{}
