//! The handle of names of keysyms.
ghost use Rattle.std.specs.Prelude.{◌≡◌, List, MatchOption, None, Option, Some};
ghost use Rattle.ks_core.specs.Table.{KeysymTable};
ghost use Rattle.ks_core.specs.contracts.names.NameTable.{the_row};
ghost use Rattle.kx_slots.specs.Slot.{slot};

use ks_core::NameTable;
use kx_slots::RawBox;
use std::alloc::Global;
use std::marker::Model;
use std::mem::replace;
use std::ptr::null_mut;

/// Empty, or names of keysyms on the heap. In C a struct of one pointer.
#[repr(C)]
pub struct NamesHandle {
    at: *mut u8,
    alloc: Global,
    pub ghost value: { Option KeysymTable },
}

impl Model for NamesHandle {
    ghost also_owns = { λ h. slot h.alloc the_row h.at h.value };
}

impl NamesHandle {
    /// Takes what the handle has, and leaves it empty.
    pub fn take(&mut self, alloc: Global) -> Option<Box<NameTable>>
        ensures empty { self.new.value ≡ None }
        ensures taken { MatchOption result (self.old.value ≡ None) (λ b.
            self.old.value ≡ Some b.value) }
    {
        let taken = replace(self, NamesHandle::empty(alloc));
        match taken.into_raw() {
            None => None,
            Some(raw) => Some(raw.into_box()),
        }
    }

    /// Lets go of what the handle has, and leaves a box there.
    pub fn put(&mut self, value: Box<NameTable>)
        ensures { self.new.value ≡ Some value.value }
    {
        replace(self, NamesHandle::of_raw(RawBox::of(value))).let_go();
    }

    /// Lets go of what the handle has, and leaves it empty.
    pub fn end(&mut self, alloc: Global)
        ensures { self.new.value ≡ None }
    {
        replace(self, NamesHandle::empty(alloc)).let_go();
    }

    /// A handle that has nothing.
    fn empty(alloc: Global) -> NamesHandle
        ensures { result.value ≡ None }
    {
        NamesHandle {
            at: null_mut(),
            alloc,
        }
    }

    fn let_go(self) {
        match self.into_raw() {
            None => {}
            Some(raw) => drop(raw.into_box()),
        }
    }

    fn of_raw(raw: RawBox<NameTable, Global>) -> NamesHandle
        ensures { result.value ≡ Some raw.value }
    {
        let RawBox { at, alloc } = raw;
        NamesHandle {
            at: at as *mut u8,
            alloc,
        }
    }

    fn into_raw(self) -> Option<RawBox<NameTable, Global>>
        ensures { MatchOption result (self.value ≡ None) (λ raw. self.value ≡ Some raw.value) }
    {
        let NamesHandle { at, alloc } = self;
        if at.is_null() {
            None
        } else {
            Some(RawBox {
                at: at as *mut NameTable,
                alloc,
            })
        }
    }
}
