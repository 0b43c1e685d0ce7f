//! What C keeps in memory of its own: a handle, or nothing.
ghost use Rattle.std.specs.Prelude.{◌≡◌, MatchOption, false, true};
ghost use mathlib.Core.Option.{none, some};

use crate::handle::Handle;
use crate::unboxed::Unboxed;
use mc_door::AnySide;
use std::alloc::Global;
use std::mem::replace;

/// A handle that is open, or none.
#[repr(C)]
#[derive(Drop)]
pub struct RawHandle {
    pub handle: Handle,
    pub live: bool,
    ghost known: { live ≡ true → ¬ (handle.value ≡ none) },
}

impl RawHandle {
    ghost use Rattle.cefrodil.specs.Open.{kept};

    #[inline(always)]
    fn empty(alloc: Global) -> RawHandle
        ensures { result.live ≡ false }
    {
        RawHandle {
            handle: Handle::empty(alloc),
            live: false,
        }
    }

    pub(crate) fn is_live(&self) -> bool
        ensures { result ≡ self.now.live }
    {
        self.live
    }

    /// What it keeps. It is closed then.
    #[inline(always)]
    pub(crate) fn take(&mut self, alloc: Global) -> Option<Box<AnySide, Global>>
        ensures closed { self.new.live ≡ false }
        ensures kept { MatchOption result (self.old.live ≡ false) (λ held. (self.old.live ≡ true) × (kept self.old ≡ some held.value)) }
    {
        let RawHandle { handle, live } = replace(self, RawHandle::empty(alloc));
        if live {
            Some(handle.into_unboxed().into_box())
        } else {
            None
        }
    }

    /// It keeps this, and is open.
    #[inline(always)]
    pub(crate) fn put(&mut self, held: Box<AnySide, Global>)
        requires { self.old.live ≡ false }
        ensures { (self.new.live ≡ true) × (kept self.new ≡ some held.value) }
    {
        self.handle = Handle::of(Unboxed::of(held));
        self.live = true;
    }
}

// Makes a call with what is behind the handle, in place. If the handle is closed, the reply says that instead.
macro_rules! told_of_handle {
    ($handle:ident, $reply:ident, $held:ident => $status:expr) => {{
        if !$handle.live {
            return mc_door::Outcome::plain(mc_door::status::CLOSED).tell($reply);
        }
        let $held = $handle.handle.held();
        $status
    }};
}

pub(crate) use told_of_handle;

fn crosses<T: Send>(_value: &T) {}

/// It is proved only if C may hand a handle to another thread. It does nothing when it runs.
pub fn handles_cross(handle: &RawHandle) {
    crosses(handle);
}
