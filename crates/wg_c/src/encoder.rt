//! An encoder as C holds it.
ghost use Rattle.std.specs.Prelude.{◌≡◌, Option, Some, None, true, is_none};
ghost use Rattle.std.specs.Option.{is_some};
ghost use Rattle.wg_encoder.specs.Recorders.{RecorderValue};
ghost use Rattle.wg_c.specs.Kept.{kept, recorder_coded};

use crate::parts::Parts;
use std::alloc::Global;
use std::marker::{Model, Send};
use std::ptr::null_mut;
use wg_encoder::Recorder;

/// An encoder as C holds it: a pointer to its recorder, or null where there is none.
#[repr(C)]
#[derive(Drop)]
pub struct Encoder {
    at: *mut u8,
    alloc: Global,
    pub ghost inside: { Option RecorderValue } by { recorder_coded },
}

impl Model for Encoder {
    ghost also_owns = { λ s. kept s.alloc s.at s.inside };
}

impl Encoder {
    /// None.
    pub fn empty(alloc: Global) -> Encoder
        ensures { result.inside ≡ None }
    {
        Encoder {
            at: null_mut(),
            alloc,
        }
    }

    /// One of what a box holds.
    pub fn of_parts(parts: Parts<Recorder, Global>) -> Encoder
        ensures { result.inside ≡ Some parts.value }
    {
        let Parts { ptr, alloc } = parts;
        Encoder {
            at: ptr as *mut u8,
            alloc,
        }
    }

    /// Whether there is none, and the encoder again.
    pub fn tested(self) -> (bool, Encoder)
        ensures shut { result.0 ≡ is_none self.inside }
        ensures same { result.1.inside ≡ self.inside }
    {
        let Encoder { at, alloc } = self;
        let is_shut = at == null_mut();
        (is_shut, Encoder { at, alloc })
    }

    /// What it holds.
    pub fn into_parts(self) -> Parts<Recorder, Global>
        requires { is_some self.inside ≡ true }
        ensures { Some result.value ≡ self.inside }
    {
        let Encoder { at, alloc } = self;
        Parts {
            ptr: at as *mut Recorder,
            alloc,
        }
    }
}

/// It may go to another thread.
unsafe impl Send for Encoder {}
