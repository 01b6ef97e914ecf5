// What holds of the parts of a load.
ghost use Rattle.load_setup.specs.LoadLine.{WordsNameLoad};
ghost use Rattle.load_setup.specs.Said.{MetainfoFilesAreRead, MetainfoFilesSayPayloads};
ghost use Rattle.std.specs.Prelude.{◌≡◌};
ghost use Rattle.load_setup.specs.declared.links.TheConstants.{LOAD_LINKS};
ghost use Rattle.load_setup.specs.declared.payload.TheConstants.{PIECE, PIECES, TOTAL};

use bencode_core::reads_what_is_spelled;
use option_set::names_are_apart;

/// The metainfo file of a load is read as it was spelled. It does nothing when it runs.
pub fn metainfo_files_say_payloads()
    ensures said { MetainfoFilesSayPayloads }
    ensures read { MetainfoFilesAreRead }
{
    reads_what_is_spelled();
}

/// The words of a load's run name its metainfo file. It does nothing when it runs.
pub fn words_name_load()
    ensures { WordsNameLoad }
{
    names_are_apart();
}

/// What a load is made of: links, pieces, the bytes of a piece and of all. It does nothing when it runs.
pub fn limits_are_told()
    ensures links { LOAD_LINKS ≡ 8 }
    ensures pieces { PIECES ≡ 64 }
    ensures piece { PIECE ≡ 1048576 }
    ensures total { TOTAL ≡ 67108864 }
{}
