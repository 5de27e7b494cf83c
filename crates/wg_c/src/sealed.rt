//! A device as C holds it.
ghost use Rattle.std.specs.Prelude.{◌≡◌, Option, Some, None, true, is_none};
ghost use Rattle.std.specs.Option.{is_some};
ghost use Rattle.wg_c.specs.Inners.{InnerValue};
ghost use Rattle.wg_c.specs.Owned.{owned, inside_coded};

use crate::inner::Inner;
use crate::parts::Parts;
use std::alloc::Global;
use std::marker::{Model, Send};
use std::ptr::null_mut;

/// A device as C holds it: a pointer, or null where there is none.
#[repr(C)]
#[derive(Drop)]
pub struct Device {
    at: *mut u8,
    alloc: Global,
    pub ghost inside: { Option InnerValue } by { inside_coded },
}

impl Model for Device {
    ghost also_owns = { λ s. owned s.alloc s.at s.inside };
}

impl Device {
    /// None.
    pub fn empty(alloc: Global) -> Device
        ensures { result.inside ≡ None }
    {
        Device {
            at: null_mut(),
            alloc,
        }
    }

    /// One of what a box holds.
    pub fn of_parts(parts: Parts<Inner, Global>) -> Device
        ensures { result.inside ≡ Some parts.value }
    {
        let Parts { ptr, alloc } = parts;
        Device {
            at: ptr as *mut u8,
            alloc,
        }
    }

    /// Whether there is none, and the device again.
    pub fn tested(self) -> (bool, Device)
        ensures shut { result.0 ≡ is_none self.inside }
        ensures same { result.1.inside ≡ self.inside }
    {
        let Device { at, alloc } = self;
        let is_shut = at == null_mut();
        (is_shut, Device { at, alloc })
    }

    /// What it holds.
    pub fn into_parts(self) -> Parts<Inner, Global>
        requires { is_some self.inside ≡ true }
        ensures { Some result.value ≡ self.inside }
    {
        let Device { at, alloc } = self;
        Parts {
            ptr: at as *mut Inner,
            alloc,
        }
    }
}

/// It may go to another thread.
unsafe impl Send for Device {}
