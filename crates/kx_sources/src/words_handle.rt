//! The handle of what is said of something that went wrong.
ghost use Rattle.std.specs.Prelude.{◌≡◌, ℕ, List, MatchOption, None, Option, Some};
ghost use Rattle.kx_sources.specs.contracts.words.Words.{the_row};
ghost use Rattle.kx_slots.specs.Slot.{slot};

use crate::words::Words;
use kx_slots::RawBox;
use std::alloc::Global;
use std::marker::Model;
use std::mem::replace;
use std::ptr::null_mut;

/// Empty, or lines that a person reads on the heap. In C a struct of one pointer.
#[repr(C)]
pub struct WordsHandle {
    at: *mut u8,
    alloc: Global,
    pub ghost value: { Option (List ℕ) },
}

impl Model for WordsHandle {
    ghost also_owns = { λ h. slot h.alloc the_row h.at h.value };
}

impl WordsHandle {
    /// Takes what the handle has, and leaves it empty.
    pub fn take(&mut self, alloc: Global) -> Option<Box<Words>>
        ensures empty { self.new.value ≡ None }
        ensures taken { MatchOption result (self.old.value ≡ None) (λ b.
            self.old.value ≡ Some b.value) }
    {
        let taken = replace(self, WordsHandle::empty(alloc));
        match taken.into_raw() {
            None => None,
            Some(raw) => Some(raw.into_box()),
        }
    }

    /// Lets go of what the handle has, and leaves a box there.
    pub fn put(&mut self, value: Box<Words>)
        ensures { self.new.value ≡ Some value.value }
    {
        replace(self, WordsHandle::of_raw(RawBox::of(value))).let_go();
    }

    /// Lets go of what the handle has, and leaves it empty.
    pub fn end(&mut self, alloc: Global)
        ensures { self.new.value ≡ None }
    {
        replace(self, WordsHandle::empty(alloc)).let_go();
    }

    /// A handle that has nothing.
    fn empty(alloc: Global) -> WordsHandle
        ensures { result.value ≡ None }
    {
        WordsHandle {
            at: null_mut(),
            alloc,
        }
    }

    fn let_go(self) {
        match self.into_raw() {
            None => {}
            Some(raw) => drop(raw.into_box()),
        }
    }

    fn of_raw(raw: RawBox<Words, Global>) -> WordsHandle
        ensures { result.value ≡ Some raw.value }
    {
        let RawBox { at, alloc } = raw;
        WordsHandle {
            at: at as *mut u8,
            alloc,
        }
    }

    fn into_raw(self) -> Option<RawBox<Words, Global>>
        ensures { MatchOption result (self.value ≡ None) (λ raw. self.value ≡ Some raw.value) }
    {
        let WordsHandle { at, alloc } = self;
        if at.is_null() {
            None
        } else {
            Some(RawBox {
                at: at as *mut Words,
                alloc,
            })
        }
    }
}
