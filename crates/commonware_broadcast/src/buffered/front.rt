//! An engine with a mailbox of its own.
ghost use Rattle.std.specs.Prelude.{◌≡◌, IfOk};
ghost use Rattle.std.specs.NonZero.{non_zero_u32_get};
ghost use Rattle.broadcast_mailbox.specs.Account.{TallyState};
ghost use Rattle.broadcast_mailbox.specs.Ends.{IngressEnd, MailboxEnd};
ghost use Rattle.commonware_broadcast.specs.Fresh.{fresh};

use crate::buffered::config::Config;
use crate::buffered::engine::Engine;
use broadcast_core::{Codec, Digestible, PublicKey};
use broadcast_mailbox::buffered::{
    Account, Answering, Books, Incoming, Ingress, Mailbox, Reply, Tally, Watch, WatchedMailbox,
    channel, watched_channel,
};
use digest_strategies::Strategy;
use engine_io::Direct;
use std::alloc::{AllocError, Global};
use std::num::NonZeroU32;
use std::sync::ledger::Blank;

/// An engine that takes the requests of a mailbox, and replies to their callers. `B` gives the
/// primary peers, `T` digests messages, and `R` is the right to wait for the mailbox's lock.
pub type MailboxEngine<P, M, B, T, R, A = ()> = Engine<
    P,
    M,
    Answering<Reply<M>>,
    Direct,
    B,
    Ingress<Incoming<P, M>, R, A>,
    T,
>;

/// An engine whose mailbox counts the tallied requests that the watch `V` matches.
pub type WatchedEngine<P, M, B, T, R, A, K, V> = MailboxEngine<
    P,
    M,
    B,
    T,
    R,
    Books<A, K, V, <M as Digestible>::Digest>,
>;

/// An engine, its mailbox that counts tallied requests, and the tally that has all parts.
pub type WatchedNode<P, M, B, T, R, A, K, V> = (
    WatchedEngine<P, M, B, T, R, A, K, V>,
    WatchedMailbox<P, M, R, A, K, V>,
    Tally<A>,
);

impl<P, M, B, R, T> Engine<P, M, Answering<Reply<M>>, Direct, B, Ingress<Incoming<P, M>, R>, T>
where
    P: PublicKey,
    M: Digestible + Codec,
    T: Strategy<M>,
    R: Clone + Drop,
{
    /// Creates an engine to which nothing has happened, and its mailbox.
    pub fn new(
        rt: R,
        alloc: Global,
        cfg: Config<P, M::Cfg, B, T>,
    ) -> Result<(Self, Mailbox<P, M, R>), AllocError>
    where
        B: Drop,
        T: Drop,
        M::Cfg: Drop,
        ensures no_history { IfOk result (λ ends.
            ends.0 ≡ fresh cfg ends.0.requests ends.0.node.outlet) }
        ensures own_mailbox { IfOk result (λ ends. ends.1.inbox ≡ ends.0.requests.inbox) }
    {
        let (mailbox, ingress) = channel(rt, alloc, cfg.mailbox_size)?;
        Ok((Engine::over(alloc, cfg, ingress, Direct), mailbox))
    }
}

impl<P: PublicKey, M: Digestible + Codec, B, R, T: Strategy<M>, A, K, V> Engine<
    P,
    M,
    Answering<Reply<M>>,
    Direct,
    B,
    Ingress<Incoming<P, M>, R, Books<A, K, V, M::Digest>>,
    T,
>
where
    R: Clone + Drop,
    A: Account,
    K: Account,
    V: Watch<M::Digest>,
{
    /// Creates an engine to which nothing has happened, its mailbox, which counts the tallied
    /// requests that `V` matches, and a tally of `parts` parts.
    pub fn new_watched(
        rt: R,
        alloc: Global,
        cfg: Config<P, M::Cfg, B, T>,
        parts: NonZeroU32,
        accepted: Blank,
        taken: Blank,
    ) -> Result<WatchedNode<P, M, B, T, R, A, K, V>, AllocError>
    where
        B: Drop,
        T: Drop,
        M::Cfg: Drop,
        requires accepted { (accepted.name ≡ A.name) × (accepted.parts ≡ A.parts) }
        requires parts { (A.all ≡ A.parts) × (A.parts ≡ non_zero_u32_get parts) }
        requires taken { (taken.name ≡ K.name) × (taken.parts ≡ K.parts) }
        requires one { (K.all ≡ K.parts) × (K.parts ≡ 1) }
        ensures no_history { IfOk result (λ ends.
            ends.0 ≡ fresh cfg ends.0.requests ends.0.node.outlet) }
        ensures own_mailbox { IfOk result (λ ends. ends.1.inbox ≡ ends.0.requests.inbox) }
        ensures whole { IfOk result (λ ends.
            ends.2 ≡ record { accepted = 0; parts = non_zero_u32_get parts }) }
    {
        let (mailbox, ingress, tally) = watched_channel::<P, M, R, A, K, V>(
            rt,
            alloc,
            cfg.mailbox_size,
            parts,
            accepted,
            taken,
        )?;
        Ok((Engine::over(alloc, cfg, ingress, Direct), mailbox, tally))
    }
}
