// A handle that C keeps: the address of a box, as a pointer to nothing that C may read.
ghost use Rattle.std.specs.Prelude.{◌≡◌, ℕ};
ghost use mathlib.Core.Option.{Option, none, some};
ghost use Rattle.std.specs.Borrow.{sem};
ghost use Rattle.cefrodil.specs.Kept.{kept_at};
ghost use Rattle.mc_door.specs.declared.any_side.AnySide.{AnySide};

use crate::unboxed::Unboxed;
use mc_door::AnySide;
use std::alloc::Global;
use std::marker::{Model, Send};

#[repr(C)]
pub struct Nothing {
    unused: u8,
}

#[repr(C)]
#[derive(Drop)]
pub struct Handle {
    at: *mut Nothing,
    alloc: Global,
    pub ghost value: { Option AnySide },
}

impl Model for Handle {
    ghost also_owns = { λ h. kept_at h.alloc h.at h.value };
}

// What is behind it may be sent to another thread, and any thread may free that block.
unsafe impl Send for Handle {}

impl Handle {
    ghost use Rattle.cefrodil.specs.Inside.Lent.{LendsHeld};

    #[inline(always)]
    pub(crate) fn empty(alloc: Global) -> Handle
        ensures { result.value ≡ none }
    {
        Handle {
            at: std::ptr::null_mut(),
            alloc,
        }
    }

    #[inline(always)]
    pub(crate) fn of(value: Unboxed<AnySide, Global>) -> Handle
        ensures { result.value ≡ some value.value }
    {
        let Unboxed { at, alloc } = value;
        Handle {
            at: at as *mut Nothing,
            alloc,
        }
    }

    // What is behind it, in place.
    #[inline(always)]
    pub(crate) fn held(&mut self) -> &mut AnySide
        requires { ¬ (self.old.value ≡ none) }
        ensures* writes_back { sem 𝓛 (LendsHeld self.entry result) }
        ensures value { some result.now ≡ self.old.value }
    {
        unsafe { &mut *(self.at as *mut AnySide) }
    }

    #[inline(always)]
    pub(crate) fn into_unboxed(self) -> Unboxed<AnySide, Global>
        requires { ¬ (self.value ≡ none) }
        ensures { some result.value ≡ self.value }
    {
        let Handle { at, alloc } = self;
        Unboxed {
            at: at as *mut AnySide,
            alloc,
        }
    }
}
