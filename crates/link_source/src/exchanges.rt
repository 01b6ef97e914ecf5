// The exchanges of a link in memory.
ghost use Rattle.std.specs.Prelude.{◌≡◌, ◌∷◌, [], IfOk, OnOk, OnErr};
ghost use Rattle.link_source.specs.Exchanges.{begun, with_received};
ghost use Rattle.link_source.specs.Memory.{exchange_of, peer_of, and_older};

use dl_kinds::Text;
use std::alloc::{AllocError, Global};
use std::marker::Model;

/// The most bytes that are asked of a link at once.
pub const MOST_RECEIVED: usize = 65_536;

/// The host and the port to which a link is open.
#[derive(Debug, Drop)]
pub struct MemPeer {
    pub host: Text,
    pub port: u16,
}

impl MemPeer {
    pub fn new(alloc: Global, host: &str, port: u16) -> Result<Self, AllocError>
        ensures { IfOk result (λ peer. peer_of peer ≡ (host.now, port)) }
    {
        Ok(MemPeer {
            host: Text::of(alloc, host)?,
            port,
        })
    }
}

/// One request, and what came from it on.
#[derive(Debug, Drop)]
pub struct MemExchange {
    pub host: Text,
    pub port: u16,
    pub request: Vec<u8>,
    pub received: Vec<u8>,
    pub ended: bool,
    pub fresh: bool,
}

impl MemExchange {
    fn new(alloc: Global, peer: &MemPeer, request: &[u8], fresh: bool) -> Result<Self, AllocError>
        ensures { IfOk result (λ exchange. exchange_of exchange
            ≡ begun peer.now.host peer.now.port request.now fresh) }
    {
        Ok(MemExchange {
            host: Text::of(alloc, peer.host.as_str())?,
            port: peer.port,
            request: request.to_vec(alloc)?,
            received: Vec::new(alloc),
            ended: false,
            fresh,
        })
    }
}

/// All exchanges so far.
#[derive(Debug, Drop)]
pub struct MemExchanges {
    past: Vec<MemExchange>,
    newest: Option<MemExchange>,
}

impl Model for MemExchanges {
    ghost use Rattle.std.specs.Prelude.{◌≡◌, [], List, IfNone};
    ghost use Rattle.link_source.specs.Memory.{and_older};
    ghost use Rattle.link_source.specs.Exchanges.{Exchange};

    ghost Value = { List Exchange };

    ghost view = { λ exchanges. and_older exchanges.newest exchanges.past.items };

    ghost invariant = { λ exchanges. IfNone exchanges.newest (exchanges.past.items ≡ []) };
}

impl MemExchanges {
    pub fn new(alloc: Global) -> Self
        ensures { result ≡ [] }
    {
        MemExchanges {
            past: Vec::new(alloc),
            newest: None,
        }
    }

    /// Begins an exchange with a request to the peer.
    pub fn begin(
        &mut self,
        alloc: Global,
        peer: &MemPeer,
        request: &[u8],
        fresh: bool,
    ) -> Result<(), AllocError>
        ensures ok { OnOk result (self.new
            ≡ begun peer.now.host peer.now.port request.now fresh ∷ self.old) }
        ensures err { OnErr result (self.new ≡ self.old) }
    {
        let exchange = MemExchange::new(alloc, peer, request, fresh)?;
        if let Some(old) = self.newest.take() {
            match self.past.push(old) {
                Ok(()) => {}
                Err(failed) => {
                    self.newest = Some(failed.value);
                    return Err(AllocError);
                }
            }
        }
        self.newest = Some(exchange);
        Ok(())
    }

    /// The newest exchange receives bytes.
    pub fn receive(&mut self, bytes: &[u8]) -> Result<(), AllocError>
        ensures ok { OnOk result (self.new ≡ with_received bytes.now self.old) }
        ensures err { OnErr result (self.new ≡ self.old) }
    {
        if let Some(exchange) = &mut self.newest {
            if bytes.is_empty() {
                exchange.ended = true;
            } else {
                exchange.received.extend_from_slice(bytes)?;
            }
        }
        Ok(())
    }
}
