// Why a run doesn't begin.
ghost use Rattle.std.specs.Prelude.{◌≡◌};
ghost use Rattle.run_lifecycle.specs.Ends as specs;

use command_call::SourceErr;
use metainfo::MetaErr;
use run_report::{MetainfoFault, RunEnding};

// Whether the bytes are no bencoded value.
fn fault_of_meta(error: MetaErr) -> MetainfoFault
    ensures { result ≡ specs.fault_of_meta error }
{
    match error {
        MetaErr::Bencode(_) => MetainfoFault::NotBencode,
        _ => MetainfoFault::Unusable,
    }
}

fn fault_of_mirrors(count: u64) -> MetainfoFault
    ensures { result ≡ specs.fault_of_mirrors count }
{
    match count {
        0 => MetainfoFault::NoMirror,
        _ => MetainfoFault::TooManyMirrors,
    }
}

/// How a run ends that has no download because of this.
pub(crate) fn ending_of_source(error: SourceErr) -> RunEnding
    ensures { result ≡ specs.ending_of_source error }
{
    match error {
        SourceErr::Missing => RunEnding::NoMetainfo(MetainfoFault::Missing),
        SourceErr::Fault => RunEnding::NoMetainfo(MetainfoFault::Unread),
        SourceErr::TooLarge => RunEnding::NoMetainfo(MetainfoFault::TooLong),
        SourceErr::Meta(error) => RunEnding::NoMetainfo(fault_of_meta(error)),
        SourceErr::Mirrors(count) => RunEnding::NoMetainfo(fault_of_mirrors(count)),
        SourceErr::NoMemory => RunEnding::NoMemory,
    }
}
