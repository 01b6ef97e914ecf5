// Laws of requests that ask for a WebSocket. They do nothing when they run.
ghost use Rattle.console_http.specs.Upgrading.{UpgradesAreRefusedOverHttp};

/// A request that asks for a WebSocket is none that HTTP alone would serve: it would be turned away for its method.
pub fn upgrades_are_refused_over_http()
    ensures { UpgradesAreRefusedOverHttp }
{}
