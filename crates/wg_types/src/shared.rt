//! What several values have in common, kept once.
ghost use Rattle.std.specs.Prelude.{◌≡◌, IfOk};
ghost use Rattle.std.specs.Arc.{arc_value};

use crate::NoMemory;
use std::alloc::{AllocError, Global};
use std::marker::Model;
use std::sync::Arc;

/// What several values have in common, kept once. Contracts see it as the value.
#[derive(Drop)]
pub struct Shared<T> {
    held: Arc<T>,
}

impl<T> Model for Shared<T> {
    ghost use Rattle.std.specs.Arc.{arc_value};

    ghost Value = { T };

    ghost view = { λ s. arc_value s.held };
}

impl<T: Drop> Shared<T> {
    /// Keeps a value to be shared.
    pub fn new(alloc: Global, value: T) -> Result<Shared<T>, NoMemory>
        ensures { IfOk result (λ shared. shared ≡ value) }
    {
        let held = Arc::new(alloc, value)?;
        Ok(Shared { held })
    }

    /// The value.
    pub fn get(&self) -> &T
        ensures { result.now ≡ self.now }
    {
        &self.held
    }

    /// The same value once more, which is not copied.
    pub fn share(&self) -> Result<Shared<T>, NoMemory>
        ensures { IfOk result (λ shared. shared ≡ self.now) }
    {
        let held = Arc::try_clone(&self.held)?;
        Ok(Shared { held })
    }
}

impl<T: Drop> Clone for Shared<T> {
    ghost is_clone = { λ a b. b ≡ a };

    fn clone(&self) -> Result<Shared<T>, AllocError> {
        let held = Arc::try_clone(&self.held)?;
        Ok(Shared { held })
    }
}
