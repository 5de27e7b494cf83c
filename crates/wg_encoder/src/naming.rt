//! What kept commands name.
ghost use Rattle.std.specs.Prelude.{◌∷◌, ◌++◌, [], List, OnOk};
ghost use Rattle.wg_types.specs.declared.commands.On.{On as OnOf};
ghost use Rattle.wg_types.specs.Commands.{Command as CommandOf};
ghost use Rattle.wg_encoder.specs.Naming.{IsNamedBy, HasRoomFor, AreNamedOnce};

use crate::once::Once;
use crate::references::push_numbers;
use crate::uses::push_uses;
use std::alloc::Global;
use wg_types::NoMemory;
use wg_types::commands::Command;
use wg_types::steps::Used;

/// The resources that one command uses, and the numbers of the objects that it names.
#[derive(Drop)]
pub struct Named {
    pub uses: Vec<Used>,
    pub objects: Vec<u64>,
}

/// The resources that commands use, and the numbers of the objects that they name. Each is there once, in the
/// order in which they first came. What the last command named is kept too, so that its lists serve the next.
#[derive(Drop)]
pub struct Naming {
    pub uses: Once<Used>,
    pub objects: Once<u64>,
    pub last: Named,
}

impl Named {
    /// Finds what a command names.
    fn find(&mut self, command: &Command) -> Result<(), NoMemory>
        ensures { OnOk result (IsNamedBy command.now self.new) }
    {
        self.uses.clear();
        push_uses(&mut self.uses, command)?;
        self.objects.clear();
        push_numbers(&mut self.objects, command)
    }
}

impl Naming {
    /// Nothing is named.
    pub fn new(alloc: Global) -> Naming
        ensures { AreNamedOnce [] result }
    {
        Naming {
            uses: Once::new(alloc),
            objects: Once::new(alloc),
            last: Named {
                uses: Vec::new(alloc),
                objects: Vec::new(alloc),
            },
        }
    }

    /// Finds what a command names, and makes room for it.
    pub fn prepare(&mut self, alloc: Global, command: &Command) -> Result<(), NoMemory>
        ensures same { (commands : List (OnOf × CommandOf)) → AreNamedOnce commands self.old → AreNamedOnce commands self.new }
        ensures named { OnOk result (IsNamedBy command.now self.new.last) }
        ensures room { OnOk result (HasRoomFor self.new self.new.last) }
    {
        self.last.find(command)?;
        self.uses.reserve(alloc, self.last.uses.len())?;
        self.objects.reserve(alloc, self.last.objects.len())
    }

    /// Adds what the last command named, in room that there is.
    pub fn add(&mut self)
        requires { HasRoomFor self.old self.old.last }
        ensures { (commands : List (OnOf × CommandOf)) (on : OnOf) (command : CommandOf) → AreNamedOnce commands self.old → IsNamedBy command self.old.last → AreNamedOnce (commands ++ (on, command) ∷ []) self.new }
    {
        self.uses.add(self.last.uses.as_slice());
        self.objects.add(self.last.objects.as_slice());
    }
}
