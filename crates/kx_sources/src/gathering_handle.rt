//! The handle of a source whose files are asked for.
ghost use Rattle.std.specs.Prelude.{◌≡◌, ℕ, List, MatchOption, None, Option, Some};
ghost use Rattle.kx_sources.specs.contracts.gathering.Gathering.{the_row};
ghost use Rattle.kx_slots.specs.Slot.{slot};

use crate::gathering::Gathering;
use kx_slots::RawBox;
use std::alloc::Global;
use std::marker::Model;
use std::mem::replace;
use std::ptr::null_mut;

/// Empty, or a source whose files are asked for on the heap. In C a struct of one pointer.
#[repr(C)]
pub struct GatheringHandle {
    at: *mut u8,
    alloc: Global,
    pub ghost value: { Option (Option (List ℕ)) },
}

impl Model for GatheringHandle {
    ghost also_owns = { λ h. slot h.alloc the_row h.at h.value };
}

impl GatheringHandle {
    /// Takes what the handle has, and leaves it empty.
    pub fn take(&mut self, alloc: Global) -> Option<Box<Gathering>>
        ensures empty { self.new.value ≡ None }
        ensures taken { MatchOption result (self.old.value ≡ None) (λ b.
            self.old.value ≡ Some b.value) }
    {
        let taken = replace(self, GatheringHandle::empty(alloc));
        match taken.into_raw() {
            None => None,
            Some(raw) => Some(raw.into_box()),
        }
    }

    /// Lets go of what the handle has, and leaves a box there.
    pub fn put(&mut self, value: Box<Gathering>)
        ensures { self.new.value ≡ Some value.value }
    {
        replace(self, GatheringHandle::of_raw(RawBox::of(value))).let_go();
    }

    /// Lets go of what the handle has, and leaves it empty.
    pub fn end(&mut self, alloc: Global)
        ensures { self.new.value ≡ None }
    {
        replace(self, GatheringHandle::empty(alloc)).let_go();
    }

    /// A handle that has nothing.
    fn empty(alloc: Global) -> GatheringHandle
        ensures { result.value ≡ None }
    {
        GatheringHandle {
            at: null_mut(),
            alloc,
        }
    }

    fn let_go(self) {
        match self.into_raw() {
            None => {}
            Some(raw) => drop(raw.into_box()),
        }
    }

    fn of_raw(raw: RawBox<Gathering, Global>) -> GatheringHandle
        ensures { result.value ≡ Some raw.value }
    {
        let RawBox { at, alloc } = raw;
        GatheringHandle {
            at: at as *mut u8,
            alloc,
        }
    }

    fn into_raw(self) -> Option<RawBox<Gathering, Global>>
        ensures { MatchOption result (self.value ≡ None) (λ raw. self.value ≡ Some raw.value) }
    {
        let GatheringHandle { at, alloc } = self;
        if at.is_null() {
            None
        } else {
            Some(RawBox {
                at: at as *mut Gathering,
                alloc,
            })
        }
    }
}
