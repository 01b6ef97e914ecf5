// What holds of each command line.
ghost use Rattle.command_call.specs.Sources.{LinesAreLawful};
ghost use Rattle.std.specs.Prelude.{◌≡◌};
ghost use Rattle.command_call.specs.declared.file.TheConstants.{MAX_METAINFO_FILE};

/// What a command line names and sets can be called for. It does nothing when it runs.
pub fn lines_are_lawful()
    ensures { LinesAreLawful }
{}

/// The most bytes of a metainfo file. It does nothing when it runs.
pub fn limits_are_told()
    ensures { MAX_METAINFO_FILE ≡ 33554432 }
{}
