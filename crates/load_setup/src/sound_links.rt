// Links of which no call is a fault.
ghost use Rattle.std.specs.Prelude.{◌≡◌, true};
ghost use Rattle.load_setup.specs.Sound.{sound_links_state};
ghost use Rattle.link_source.specs.MemLinks.{link_state};

use dl_kinds::IoErr;
use link_source::{Links, MemLinks};

/// Links to mirrors in memory. A call that fails leaves them as they were, and is answered with want of memory, so that none is
/// a fault.
#[derive(Debug, Drop)]
pub struct SoundLinks {
    links: MemLinks,
}

impl SoundLinks {
    pub fn new(links: MemLinks) -> Self
        ensures { sound_links_state result ≡ link_state links }
    {
        SoundLinks { links }
    }
}

// A call that failed wasn't made.
fn unmade(_failed: IoErr) -> IoErr
    ensures { result ≡ IoErr.NoMemory }
{
    IoErr::NoMemory
}

impl Links for SoundLinks {
    ghost use Rattle.std.specs.Prelude.{◌≡◌, true, IsErrOf};
    ghost use Rattle.load_setup.specs.Sound.{sound_links_state};

    ghost tells = { true };

    ghost state = { sound_links_state };

    ghost faults = { λ links. 0 };

    fn faults(&self) -> u64 {
        0
    }

    fn dial(&mut self, host: &str, port: u16) -> Result<(), IoErr> {
        self.links.dial(host, port).map_err(unmade)
    }

    fn send(&mut self, bytes: &[u8]) -> Result<(), IoErr> {
        self.links.send(bytes).map_err(unmade)
    }

    fn recv(&mut self, into: &mut [u8]) -> Result<usize, IoErr> {
        self.links.recv(into).map_err(unmade)
    }

    fn dial_data(&mut self, port: u16) -> Result<(), IoErr> {
        self.links.dial_data(port).map_err(unmade)
    }

    fn recv_data(&mut self, into: &mut [u8]) -> Result<usize, IoErr>
        ensures failed { sound_links_state self.new ≡ sound_links_state self.old }
        ensures unmade { IsErrOf result IoErr.NoMemory }
    {
        self.links.recv_data(into).map_err(unmade)
    }

    fn hang_up(&mut self) {
        self.links.hang_up();
    }
}
