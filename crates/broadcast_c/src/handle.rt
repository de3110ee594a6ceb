//! A store as C has it.
ghost use Rattle.std.specs.Prelude.{◌≡◌, Option, Some, None, is_some, true, MatchOption};
ghost use Rattle.broadcast_c.specs.declared.store.Store.{Store};

use crate::parts::Parts;
use crate::store::Store;
use std::alloc::Global;
use std::marker::Model;
use std::mem;
use std::ptr::null_mut;

/// Owns a boxed store if it is full, and nothing else.
#[repr(C)]
#[derive(Drop)]
pub struct StoreHandle {
    at: *mut (),
    full: bool,
    pub ghost value: { Option Store },
    ghost marked: { full ≡ is_some value },
}

impl Model for StoreHandle {
    ghost use Rattle.broadcast_c.specs.Holding.{holds_store};

    ghost also_owns = { λ h. holds_store h.at h.value };
}

impl StoreHandle {
    fn empty() -> StoreHandle
        ensures { result.value ≡ None }
    {
        StoreHandle {
            at: null_mut(),
            full: false,
        }
    }

    fn of_parts(parts: Parts<Store, Global>) -> StoreHandle
        ensures { result.value ≡ Some parts.value }
    {
        let Parts { ptr, alloc: _ } = parts;
        StoreHandle {
            at: ptr as *mut (),
            full: true,
        }
    }

    fn into_parts(self, alloc: Global) -> Parts<Store, Global>
        requires { self.full ≡ true }
        ensures { self.value ≡ Some result.value }
    {
        let StoreHandle { at, full: _ } = self;
        Parts {
            ptr: at as *mut Store,
            alloc,
        }
    }

    // Returns whether it is full, and the handle.
    fn with_full(self) -> (bool, StoreHandle)
        ensures { (result.0 ≡ is_some self.value) × (result.1.value ≡ self.value) }
    {
        let StoreHandle { at, full } = self;
        (full, StoreHandle { at, full })
    }

    /// Takes the store out.
    pub fn take(&mut self, alloc: Global) -> Option<Box<Store>>
        ensures was { MatchOption result (self.old.value ≡ None)
            (λ store. self.old.value ≡ Some store.value) }
        ensures left { self.new.value ≡ None }
    {
        let (full, held) = mem::replace(self, StoreHandle::empty()).with_full();
        if full {
            Some(held.into_parts(alloc).into_box())
        } else {
            None
        }
    }

    /// Puts a store in.
    pub fn put(&mut self, store: Box<Store>)
        ensures { self.new.value ≡ Some store.value }
    {
        *self = StoreHandle::of_parts(Parts::of(store));
    }
}

/// C may pass it to another thread: what it holds may move, and any thread may free the block.
unsafe impl Send for StoreHandle {}
