//! The log of an author as C has it.
ghost use Rattle.std.specs.Prelude.{◌≡◌, Option, Some, None, is_some, true, MatchOption};
ghost use Rattle.broadcast_c.specs.declared.log_handle.OwnLog.{OwnLog};

use crate::parts::Parts;
use gossip::Log;
use std::alloc::Global;
use std::marker::Model;
use std::mem;
use std::ptr::null_mut;

/// The log of an author.
#[derive(Drop)]
pub struct OwnLog {
    pub log: Log,
}

/// Owns a boxed log if it is full, and nothing else.
#[repr(C)]
#[derive(Drop)]
pub struct LogHandle {
    at: *mut (),
    full: bool,
    pub ghost value: { Option OwnLog },
    ghost marked: { full ≡ is_some value },
}

impl Model for LogHandle {
    ghost use Rattle.broadcast_c.specs.Holding.{holds_log};

    ghost also_owns = { λ h. holds_log h.at h.value };
}

impl LogHandle {
    fn empty() -> LogHandle
        ensures { result.value ≡ None }
    {
        LogHandle {
            at: null_mut(),
            full: false,
        }
    }

    fn of_parts(parts: Parts<OwnLog, Global>) -> LogHandle
        ensures { result.value ≡ Some parts.value }
    {
        let Parts { ptr, alloc: _ } = parts;
        LogHandle {
            at: ptr as *mut (),
            full: true,
        }
    }

    fn into_parts(self, alloc: Global) -> Parts<OwnLog, Global>
        requires { self.full ≡ true }
        ensures { self.value ≡ Some result.value }
    {
        let LogHandle { at, full: _ } = self;
        Parts {
            ptr: at as *mut OwnLog,
            alloc,
        }
    }

    // Returns whether it is full, and the handle.
    fn with_full(self) -> (bool, LogHandle)
        ensures { (result.0 ≡ is_some self.value) × (result.1.value ≡ self.value) }
    {
        let LogHandle { at, full } = self;
        (full, LogHandle { at, full })
    }

    /// Takes the log out.
    pub fn take(&mut self, alloc: Global) -> Option<Box<OwnLog>>
        ensures was { MatchOption result (self.old.value ≡ None)
            (λ log. self.old.value ≡ Some log.value) }
        ensures left { self.new.value ≡ None }
    {
        let (full, held) = mem::replace(self, LogHandle::empty()).with_full();
        if full {
            Some(held.into_parts(alloc).into_box())
        } else {
            None
        }
    }

    /// Puts a log in.
    pub fn put(&mut self, log: Box<OwnLog>)
        ensures { self.new.value ≡ Some log.value }
    {
        *self = LogHandle::of_parts(Parts::of(log));
    }
}

/// C may pass it to another thread: what it holds may move, and any thread may free the block.
unsafe impl Send for LogHandle {}
