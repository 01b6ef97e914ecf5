// Laws of what is fetched.
ghost use Rattle.std.specs.Prelude.{◌≡◌};
ghost use Rattle.fetch_session.specs.Fetches.{HandedIsFetched};
ghost use Rattle.fetch_session.specs.declared.blocks.TheConstants.{MOST_READY};
ghost use Rattle.fetch_session.specs.declared.room.TheConstants.{BUFFER};

/// Each block that a fetch handed out is what its streams tell, also where the fetch is given up before its end.
pub fn handed_bytes_are_fetched()
    ensures { HandedIsFetched }
{}

/// How many blocks may be ready at once, and the bytes of a buffer for them. It does nothing when it runs.
pub fn limits_are_told()
    ensures ready { MOST_READY ≡ 64 }
    ensures buffer { BUFFER ≡ 1048576 }
{}
