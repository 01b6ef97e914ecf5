// What slices of a payload are.
ghost use Rattle.span_map.specs.Slices.{PartsHoldSlices};
ghost use Rattle.std.specs.Prelude.{◌≡◌};
ghost use Rattle.span_map.specs.declared.paths.TheConstants.{MAX_PARTS, MAX_PART_LEN};

/// The parts of a slice hold, in order, the bytes of the slice, whatever the files hold.
pub fn parts_hold_slices()
    ensures { PartsHoldSlices }
{}

/// The most parts of a path, and the most bytes of a part. It does nothing when it runs.
pub fn limits_are_told()
    ensures parts { MAX_PARTS ≡ 64 }
    ensures part { MAX_PART_LEN ≡ 255 }
{}
