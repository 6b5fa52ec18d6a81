//! A desk, as C holds it.

ghost use Rattle.std.specs.Prelude.{◌≡◌, Some, None, true, false, is_some};

use crate::handle::Handle;
use crate::parts::Parts;
use lx_embed::HostDesk;
use std::alloc::Global;

/// A desk, as C holds it: closed, or open. All zero bytes are a closed one. C neither copies an open one nor changes it.
#[repr(C)]
#[derive(Drop)]
pub struct CueDesk {
    handle: Handle,
    is_open: bool,
    ghost tied: { is_open ≡ is_some handle.held },
}

impl CueDesk {
    /// Whether it is open.
    pub(crate) fn is_open(&self) -> bool
        ensures { result ≡ is_some self.now.handle.held }
    {
        self.is_open
    }

    /// An open desk.
    pub(crate) fn of(host: Box<HostDesk, Global>) -> CueDesk
        ensures { result.handle.held ≡ Some host.value }
    {
        CueDesk {
            handle: Handle::of_parts(Parts::of(host)),
            is_open: true,
        }
    }

    /// Opens a closed desk over this.
    pub(crate) fn put(&mut self, host: Box<HostDesk, Global>)
        requires { self.old.handle.held ≡ None }
        ensures { self.new.handle.held ≡ Some host.value }
    {
        self.handle = Handle::of_parts(Parts::of(host));
        self.is_open = true;
    }

    /// Takes out what an open desk leads to, and leaves it closed.
    pub(crate) fn take(&mut self, alloc: Global) -> Box<HostDesk, Global>
        requires { is_some self.old.handle.held ≡ true }
        ensures held { self.old.handle.held ≡ Some result.value }
        ensures closed { self.new.handle.held ≡ None }
    {
        let closed = CueDesk {
            handle: Handle::none(),
            is_open: false,
        };
        let old = std::mem::replace(self, closed);
        old.handle.into_parts(alloc).into_box()
    }
}
