// The limits as numbers.
ghost use Rattle.std.specs.Prelude.{◌≡◌};
ghost use Rattle.dl_queue.specs.declared.kinds.TheConstants.{MAX_DOWNLOADS};

/// The most downloads that a run may add. It does nothing when it runs.
pub fn limits_are_told()
    ensures { MAX_DOWNLOADS ≡ 65536 }
{}
