//! The handle of a keyboard.
ghost use Rattle.std.specs.Prelude.{◌≡◌, MatchOption, None, Option, Some};
ghost use Rattle.kx_run.specs.Player.{Played};
ghost use Rattle.kx_handles.specs.contracts.shared_keyboard.SharedKeyboard.{the_row};
ghost use Rattle.kx_slots.specs.Slot.{slot};

use crate::shared_keyboard::SharedKeyboard;
use kx_slots::RawBox;
use std::alloc::Global;
use std::marker::Model;
use std::mem::replace;
use std::ptr::null_mut;

/// Empty, or a keyboard on the heap. In C a struct of one pointer.
#[repr(C)]
pub struct KeyboardHandle {
    at: *mut u8,
    alloc: Global,
    pub ghost value: { Option Played },
}

impl Model for KeyboardHandle {
    ghost also_owns = { λ h. slot h.alloc the_row h.at h.value };
}

impl KeyboardHandle {
    /// Takes what the handle has, and leaves it empty.
    pub fn take(&mut self, alloc: Global) -> Option<Box<SharedKeyboard>>
        ensures empty { self.new.value ≡ None }
        ensures taken { MatchOption result (self.old.value ≡ None) (λ b.
            self.old.value ≡ Some b.value) }
    {
        let taken = replace(self, KeyboardHandle::empty(alloc));
        match taken.into_raw() {
            None => None,
            Some(raw) => Some(raw.into_box()),
        }
    }

    /// Lets go of what the handle has, and leaves a box there.
    pub fn put(&mut self, value: Box<SharedKeyboard>)
        ensures { self.new.value ≡ Some value.value }
    {
        replace(self, KeyboardHandle::of_raw(RawBox::of(value))).let_go();
    }

    /// Lets go of what the handle has, and leaves it empty.
    pub fn end(&mut self, alloc: Global)
        ensures { self.new.value ≡ None }
    {
        replace(self, KeyboardHandle::empty(alloc)).let_go();
    }

    /// A handle that has nothing.
    fn empty(alloc: Global) -> KeyboardHandle
        ensures { result.value ≡ None }
    {
        KeyboardHandle {
            at: null_mut(),
            alloc,
        }
    }

    fn let_go(self) {
        match self.into_raw() {
            None => {}
            Some(raw) => drop(raw.into_box()),
        }
    }

    fn of_raw(raw: RawBox<SharedKeyboard, Global>) -> KeyboardHandle
        ensures { result.value ≡ Some raw.value }
    {
        let RawBox { at, alloc } = raw;
        KeyboardHandle {
            at: at as *mut u8,
            alloc,
        }
    }

    fn into_raw(self) -> Option<RawBox<SharedKeyboard, Global>>
        ensures { MatchOption result (self.value ≡ None) (λ raw. self.value ≡ Some raw.value) }
    {
        let KeyboardHandle { at, alloc } = self;
        if at.is_null() {
            None
        } else {
            Some(RawBox {
                at: at as *mut SharedKeyboard,
                alloc,
            })
        }
    }
}
