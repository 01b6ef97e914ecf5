// Laws of the numbers and the ranges in the head of a reply.
ghost use Rattle.range_http.specs.RangeLaws.{NumbersAreRead, RangesAreRead};
ghost use Rattle.std.specs.Prelude.{◌≡◌, ◌^◌};
ghost use Rattle.range_http.specs.declared.range.TheConstants.{NUMBER_LIMIT};

/// Laws of the numbers and the ranges: what is read of a text is what the text spells.
pub fn numbers_and_ranges_are_read()
    ensures numbers { NumbersAreRead }
    ensures ranges { RangesAreRead }
{}

/// The first number that no head may have. It does nothing when it runs.
pub fn limits_are_told()
    ensures { NUMBER_LIMIT ≡ 2 ^ 63 }
{}
