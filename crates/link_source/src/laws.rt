// Laws of the definitions.
ghost use Rattle.link_source.specs.Mirrors.{AnswersRequests};
ghost use Rattle.link_source.specs.Requests.{AsksOnce};
ghost use Rattle.std.specs.Prelude.{◌≡◌};
ghost use Rattle.link_source.specs.declared.exchanges.TheConstants.{MOST_RECEIVED};

/// A request is read in one way, whatever its target is, and its reply is the one to what it asks for.
pub fn requests_are_read_once()
    ensures once { AsksOnce }
    ensures answered { AnswersRequests }
{}

/// The most bytes that a link is asked for at once. It does nothing when it runs.
pub fn limits_are_told()
    ensures { MOST_RECEIVED ≡ 65536 }
{}
