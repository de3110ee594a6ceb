//! Engines that are made and started by one call.
ghost use Rattle.std.specs.Prelude.{◌≡◌, IfOk};
ghost use Rattle.broadcast_mailbox.specs.Ends.{IngressEnd, MailboxEnd};
ghost use Rattle.commonware_broadcast.specs.Fresh.{fresh};

use crate::buffered::config::Config;
use crate::buffered::engine::{Engine, StartError};
use crate::buffered::front::MailboxEngine;
use crate::buffered::runtime::{Movable, Runtime};
use crate::buffered::started::Handle;
use broadcast_core::{Codec, Digestible, PublicKey};
use broadcast_mailbox::buffered::Mailbox;
use digest_strategies::Strategy;
use engine_io::{Provider, Receiver, Sender};
use std::alloc::{AllocError, AllocGlobal};

/// Creates an engine and its mailbox, and starts it in a thread of its own, where it runs until it
/// ends.
///
/// Fails if an allocation fails or no thread can be started. Then there is no engine.
pub fn start<P, M, B, T, N, V, R>(
    rt: &R,
    cfg: Config<P, M::Cfg, B, T>,
    network: (N, V),
) -> Result<(Handle<P, M, R>, Mailbox<P, M, R>), StartError>
where
    P: PublicKey + Send + 'static,
    M: Digestible + Codec + Send + Sync + 'static,
    M::Digest: 'static,
    M::Cfg: Send + Drop + 'static,
    B: Provider<P> + Movable,
    T: Strategy<M> + Movable,
    T::Job: Send + 'static,
    N: Sender<P> + Movable,
    V: Receiver<P> + Movable,
    R: Runtime,
    ensures own_mailbox { IfOk result (λ started. started.0.inbox ≡ started.1.inbox) }
{
    let Ok((engine, mailbox)) = new_engine::<P, M, B, T, R>(rt, cfg) else {
        drop::<_>(network);
        return Err(StartError::Memory);
    };
    let handle = engine.start(rt, network)?;
    Ok((handle, mailbox))
}

/// Creates an engine and its mailbox.
fn new_engine<P: PublicKey, M: Digestible + Codec, B, T, R>(
    rt: &R,
    cfg: Config<P, M::Cfg, B, T>,
) -> Result<(MailboxEngine<P, M, B, T, R>, Mailbox<P, M, R>), AllocError>
where
    M::Cfg: Drop,
    B: Drop,
    T: Strategy<M> + Drop,
    R: AllocGlobal + Clone + Drop,
    ensures no_history { IfOk result (λ ends.
        ends.0 ≡ fresh cfg ends.0.requests ends.0.node.outlet) }
    ensures own_mailbox { IfOk result (λ ends. ends.1.inbox ≡ ends.0.requests.inbox) }
{
    Engine::new(rt.clone()?, rt.alloc(), cfg)
}
