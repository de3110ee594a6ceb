//! Broadcasts through an inbox and back.
ghost use Rattle.std.specs.Prelude.{◌≡◌, IfOk, OnOk, IfErr};
ghost use Rattle.programs.specs.Loopback.{IsIdle, passed, broadcasts_by, broadcasts_in};
ghost use Rattle.broadcast_mailbox.specs.declared.broadcaster.MailboxError.TheVariants as mailbox;
ghost use Rattle.programs.specs.declared.text.fault.Fault.TheVariants.{Memory, Mailbox as MailboxFailed};

use crate::text::fault::Fault;
use broadcast_core::{Closable, Digested, Event, Items, Recipients, TestMessage};
use broadcast_mailbox::MailboxError;
use broadcast_mailbox::buffered::{Inbox, Queued};
use std::alloc::Global;
use std::mem;

/// A request of the program, which is always a broadcast.
#[derive(Drop)]
pub struct Request {
    recipients: Recipients<u64>,
    message: Digested<TestMessage>,
}

impl Closable for Request {
    ghost use Rattle.std.specs.Prelude.{◌≡◌, false};

    ghost may_answer = { λ _ closed. closed ≡ false };

    fn is_closed(&self) -> bool {
        false
    }
}

/// Queues each broadcast in the inbox and takes it again, in order. The events stay the same.
///
/// # Errors
///
/// Fails with [`Fault::Memory`] if an allocation fails, and with [`Fault::Mailbox`] if the inbox
/// refuses a broadcast for another cause, or if a broadcast of others waits in it. Some events may
/// be lost then.
pub fn loop_back(
    inbox: &mut Inbox<Request>,
    alloc: Global,
    events: &mut [Event<u64, TestMessage>],
) -> Result<(), Fault>
    ensures events_stay { OnOk result (events.new ≡ events.old) }
    ensures counts_each { OnOk result (inbox.new ≡ passed inbox.old (broadcasts_in events.old)) }
    // An idle inbox refuses a broadcast only if an allocation fails.
    ensures idle_lacks_memory_alone { IsIdle inbox.old (broadcasts_in events.old)
        → IfErr result (λ fault. fault ≡ Memory) }
{
    for i in 0..events.len() {
        pass_back(inbox, alloc, &mut events[i])?;
    }
    Ok(())
}

/// Passes the event through the inbox if it is a broadcast. It stays the same.
fn pass_back(
    inbox: &mut Inbox<Request>,
    alloc: Global,
    event: &mut Event<u64, TestMessage>,
) -> Result<(), Fault>
    ensures event_stays { OnOk result (event.new ≡ event.old) }
    ensures counts_each { OnOk result (inbox.new ≡ passed inbox.old (broadcasts_by event.old)) }
    ensures idle_lacks_memory_alone { IsIdle inbox.old (broadcasts_by event.old)
        → IfErr result (λ fault. fault ≡ Memory) }
{
    if !matches!(event, Event::Broadcast(..)) {
        return Ok(());
    }
    let taken = mem::replace(event, Event::Cleanup(Items::new(alloc)));
    *event = pass_event(inbox, taken)?;
    Ok(())
}

/// Passes the event through the inbox if it is a broadcast.
fn pass_event(
    inbox: &mut Inbox<Request>,
    event: Event<u64, TestMessage>,
) -> Result<Event<u64, TestMessage>, Fault>
    ensures event_stays { IfOk result (λ back. back ≡ event) }
    ensures counts_each { OnOk result (inbox.new ≡ passed inbox.old (broadcasts_by event)) }
    ensures idle_lacks_memory_alone { IsIdle inbox.old (broadcasts_by event)
        → IfErr result (λ fault. fault ≡ Memory) }
{
    match event {
        Event::Broadcast(recipients, message) => {
            let request = Request {
                recipients,
                message,
            };
            let Request {
                recipients,
                message,
            } = pass(inbox, request)?;
            Ok(Event::Broadcast(recipients, message))
        }
        other => Ok(other),
    }
}

/// Queues the message in the inbox, and takes it again.
fn pass<T: Closable + Drop>(inbox: &mut Inbox<T>, message: T) -> Result<T, Fault>
    ensures message_stays { IfOk result (λ back. back ≡ message) }
    ensures counts_each { OnOk result (inbox.new ≡ passed inbox.old 1) }
    ensures idle_lacks_memory_alone { IsIdle inbox.old 1 → IfErr result (λ fault. fault ≡ Memory) }
{
    // A request that waits already would be taken in place of this one.
    if inbox.counts().waiting != 0 {
        return Err(Fault::Mailbox);
    }
    let Queued::Ready(_) = inbox.enqueue(message).map_err(mailbox_fault)? else {
        return Err(Fault::Mailbox);
    };
    let Some((_, message)) = inbox.take() else {
        return Err(Fault::Mailbox);
    };
    Ok(message)
}

/// Returns the fault of a refused request.
fn mailbox_fault(error: MailboxError) -> Fault
    ensures allocation_failed { error ≡ mailbox.Memory → result ≡ Memory }
    ensures tickets_used_up { error ≡ mailbox.Exhausted → result ≡ MailboxFailed }
{
    match error {
        MailboxError::Memory => Fault::Memory,
        MailboxError::Exhausted => Fault::Mailbox,
    }
}
