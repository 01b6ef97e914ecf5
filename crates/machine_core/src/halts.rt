// How the claims of downloads end.
ghost use Rattle.machine_core.specs.MachineParts.{AreHalted};

use crate::entries::Entry;

/// The claims of all downloads end.
pub(crate) fn halt_all(entries: &mut Vec<Entry>)
    ensures { AreHalted entries.old.items entries.new.items }
{
    for at in 0..entries.len() {
        entries[at].state.halted(false);
    }
}
