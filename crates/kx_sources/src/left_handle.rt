//! The handle of what an image leaves out.
ghost use Rattle.std.specs.Prelude.{◌≡◌, MatchOption, None, Option, Some};
ghost use Rattle.kx_clients.specs.LeftOut.{LeftOut as LeftOutValue};
ghost use Rattle.kx_clients.specs.contracts.left.LeftOut.{the_row};
ghost use Rattle.kx_slots.specs.Slot.{slot};

use kx_clients::LeftOut;
use kx_slots::RawBox;
use std::alloc::Global;
use std::marker::Model;
use std::mem::replace;
use std::ptr::null_mut;

/// Empty, or what an image leaves out on the heap. In C a struct of one pointer.
#[repr(C)]
pub struct LeftHandle {
    at: *mut u8,
    alloc: Global,
    pub ghost value: { Option LeftOutValue },
}

impl Model for LeftHandle {
    ghost also_owns = { λ h. slot h.alloc the_row h.at h.value };
}

impl LeftHandle {
    /// Takes what the handle has, and leaves it empty.
    pub fn take(&mut self, alloc: Global) -> Option<Box<LeftOut>>
        ensures empty { self.new.value ≡ None }
        ensures taken { MatchOption result (self.old.value ≡ None) (λ b.
            self.old.value ≡ Some b.value) }
    {
        let taken = replace(self, LeftHandle::empty(alloc));
        match taken.into_raw() {
            None => None,
            Some(raw) => Some(raw.into_box()),
        }
    }

    /// Lets go of what the handle has, and leaves a box there.
    pub fn put(&mut self, value: Box<LeftOut>)
        ensures { self.new.value ≡ Some value.value }
    {
        replace(self, LeftHandle::of_raw(RawBox::of(value))).let_go();
    }

    /// Lets go of what the handle has, and leaves it empty.
    pub fn end(&mut self, alloc: Global)
        ensures { self.new.value ≡ None }
    {
        replace(self, LeftHandle::empty(alloc)).let_go();
    }

    /// A handle that has nothing.
    fn empty(alloc: Global) -> LeftHandle
        ensures { result.value ≡ None }
    {
        LeftHandle {
            at: null_mut(),
            alloc,
        }
    }

    fn let_go(self) {
        match self.into_raw() {
            None => {}
            Some(raw) => drop(raw.into_box()),
        }
    }

    fn of_raw(raw: RawBox<LeftOut, Global>) -> LeftHandle
        ensures { result.value ≡ Some raw.value }
    {
        let RawBox { at, alloc } = raw;
        LeftHandle {
            at: at as *mut u8,
            alloc,
        }
    }

    fn into_raw(self) -> Option<RawBox<LeftOut, Global>>
        ensures { MatchOption result (self.value ≡ None) (λ raw. self.value ≡ Some raw.value) }
    {
        let LeftHandle { at, alloc } = self;
        if at.is_null() {
            None
        } else {
            Some(RawBox {
                at: at as *mut LeftOut,
                alloc,
            })
        }
    }
}
