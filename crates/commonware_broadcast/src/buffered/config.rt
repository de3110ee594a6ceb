//! The configuration of an engine.
ghost use Rattle.std.specs.Prelude.{◌≡◌, false};
ghost use Rattle.std.specs.NonZero.{non_zero_usize_get};

use digest_strategies::Sequential;
use std::num::NonZeroUsize;

/// The configuration of an engine.
#[derive(Drop)]
pub struct Config<P, MCfg, D, T> {
    /// The public key of this node.
    pub public_key: P,
    /// The greatest number of requests in the mailbox's ready list.
    pub mailbox_size: NonZeroUsize,
    /// The greatest number of digests that are kept of each peer.
    pub deque_size: usize,
    /// The most bytes that the digests of a peer are charged together.
    pub byte_budget: u64,
    /// Whether messages are sent as priority.
    pub priority: bool,
    /// What messages of peers may be decoded. Those that the node broadcasts may be others.
    pub codec_config: MCfg,
    /// Gives the primary peers.
    pub peer_provider: D,
    /// Digests messages.
    pub strategy: T,
}

impl<P, D> Config<P, (), D, Sequential> {
    /// Creates a configuration whose ready list has 1,024 places. Of each peer at most 256 digests
    /// are kept, which are charged at most 64 MiB. Messages are not sent as priority, are digested
    /// at once, and are decoded without a configuration. Each of these is a field.
    pub fn new(public_key: P, peer_provider: D) -> Self
        ensures key { result.public_key ≡ public_key }
        ensures provider { result.peer_provider ≡ peer_provider }
        ensures mailbox { non_zero_usize_get result.mailbox_size ≡ 1024 }
        ensures lists { (result.deque_size ≡ 256) × (result.byte_budget ≡ 67108864) }
        ensures priority { result.priority ≡ false }
    {
        Config {
            public_key,
            mailbox_size: NonZeroUsize::new(1024).unwrap(),
            deque_size: 256,
            byte_budget: 64 * 1024 * 1024,
            priority: false,
            codec_config: (),
            peer_provider,
            strategy: Sequential,
        }
    }
}

impl<P, D, T> Config<P, (), D, T> {
    /// Sets what messages of peers may be decoded.
    pub fn with_codec_config<MCfg>(self, codec_config: MCfg) -> Config<P, MCfg, D, T>
        ensures { result ≡ record {
          public_key = self.public_key;
          mailbox_size = self.mailbox_size;
          deque_size = self.deque_size;
          byte_budget = self.byte_budget;
          priority = self.priority;
          codec_config = codec_config;
          peer_provider = self.peer_provider;
          strategy = self.strategy;
        } }
    {
        Config {
            public_key: self.public_key,
            mailbox_size: self.mailbox_size,
            deque_size: self.deque_size,
            byte_budget: self.byte_budget,
            priority: self.priority,
            codec_config,
            peer_provider: self.peer_provider,
            strategy: self.strategy,
        }
    }
}

impl<P, MCfg, D, T> Config<P, MCfg, D, T> {
    /// Sets the greatest number of digests that are kept of each peer.
    pub fn with_deque_size(self, deque_size: usize) -> Self
        ensures { result ≡ record self { deque_size = deque_size } }
    {
        let mut config = self;
        config.deque_size = deque_size;
        config
    }

    /// Sets the most bytes that the digests of a peer are charged together.
    pub fn with_byte_budget(self, byte_budget: u64) -> Self
        ensures { result ≡ record self { byte_budget = byte_budget } }
    {
        let mut config = self;
        config.byte_budget = byte_budget;
        config
    }
}
