//! The pointer in a handle.

ghost use Rattle.std.specs.Prelude.{◌≡◌, Some, None, Option, is_some, true};
ghost use Rattle.lx_embed.specs.declared.desk.HostDesk.{HostDesk};
ghost use Rattle.lx_host.specs.Handle.{held_coded};

use crate::parts::Parts;
use lx_embed::HostDesk;
use std::alloc::Global;
use std::marker::Model;
use std::ptr::null_mut;

/// What a handle leads to, or nothing.
#[repr(C)]
#[derive(Drop)]
pub struct Handle {
    at: *mut u8,
    pub ghost held: { Option HostDesk } by { held_coded },
}

impl Model for Handle {
    ghost use Rattle.lx_host.specs.Handle.{handle_owns};

    ghost also_owns = { λ h. handle_owns h.at h.held };
}

impl Handle {
    /// Leads to nothing.
    pub(crate) fn none() -> Handle
        ensures { result.held ≡ None }
    {
        Handle { at: null_mut() }
    }

    pub(crate) fn of_parts(parts: Parts<HostDesk, Global>) -> Handle
        ensures { result.held ≡ Some parts.value }
    {
        let Parts { ptr, alloc: _ } = parts;
        Handle { at: ptr as *mut u8 }
    }

    pub(crate) fn into_parts(self, alloc: Global) -> Parts<HostDesk, Global>
        requires { is_some self.held ≡ true }
        ensures { self.held ≡ Some result.value }
    {
        let Handle { at } = self;
        Parts {
            ptr: at as *mut HostDesk,
            alloc,
        }
    }
}

unsafe impl Send for Handle {}
