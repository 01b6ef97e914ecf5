// Laws of the table.
ghost use Rattle.option_set.specs.Laws.{NamesAreApart};
ghost use Rattle.std.specs.Prelude.{◌≡◌};
ghost use Rattle.option_set.specs.declared.files.TheConstants.{MAX_FILES};

/// No two options have one name. It does nothing when it runs.
pub fn names_are_apart()
    ensures { NamesAreApart }
{}

/// The highest number of a file that `select-file` may have. It does nothing when it runs.
pub fn limits_are_told()
    ensures { MAX_FILES ≡ 1048576 }
{}
