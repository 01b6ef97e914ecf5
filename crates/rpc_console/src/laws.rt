// Laws of what methods ask for.
ghost use Rattle.rpc_console.specs.Laws.{AskingsAreLawful, MethodsHaveNames};
ghost use Rattle.rpc_console.specs.Names.{NamesAscend};
ghost use Rattle.std.specs.Prelude.{◌≡◌};
ghost use Rattle.rpc_console.specs.declared.torrents.TheConstants.{MAX_TORRENT_LEN};

/// A call that a method asks for may be made.
pub fn askings_are_lawful()
    ensures { AskingsAreLawful }
{}

/// Every method is known by its own name alone, and listed in the order of the names.
pub fn methods_have_names()
    ensures named { MethodsHaveNames }
    ensures ascend { NamesAscend }
{}

/// The most bytes of a metainfo file that a call may bring. It does nothing when it runs.
pub fn limits_are_told()
    ensures { MAX_TORRENT_LEN ≡ 4294967295 }
{}
