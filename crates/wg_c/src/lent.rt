//! A device as C lends it for reading.
ghost use Rattle.std.specs.Prelude.{◌≡◌, Option, Some, true, is_none};
ghost use Rattle.std.specs.Option.{is_some};
ghost use Rattle.wg_c.specs.Inners.{InnerValue};
ghost use Rattle.wg_c.specs.Lends.{lent, inside_coded};

use crate::inner::Inner;
use std::marker::Model;
use std::ptr::null;

/// A device as C lends it for reading: the pointer of a `Device`, or null where there is none. While a call has it, the
/// caller changes neither the pointer nor what lies behind it, and may lend both to other calls at once. What lies
/// there is lent for a lifetime that ends after the call.
#[repr(C)]
#[derive(Drop)]
pub struct Lent {
    at: *const u8,
    pub ghost inside: { Option InnerValue } by { inside_coded },
}

impl Model for Lent {
    ghost also_owns = { λ s. lent s.at s.inside };
}

impl Lent {
    /// Whether there is none.
    pub fn is_shut(&self) -> bool
        ensures { result ≡ is_none self.now.inside }
    {
        self.at == null()
    }

    /// What lies behind it.
    pub fn get(&self) -> &Inner
        requires { is_some self.now.inside ≡ true }
        ensures { Some result.now ≡ self.now.inside }
    {
        unsafe { &*(self.at as *const Inner) }
    }
}
