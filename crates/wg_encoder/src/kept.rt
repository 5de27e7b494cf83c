//! What a recorder keeps.
ghost use Rattle.std.specs.Prelude.{◌≡◌, ◌∷◌, ◌<◌, ◌++◌, [], List, true, false, is_some, vec_len, vec_capacity, reverse, IfOk, OnOk, OnErr};
ghost use Rattle.wg_types.specs.declared.commands.On.{On as OnOf};
ghost use Rattle.wg_types.specs.Commands.{Command as CommandOf};
ghost use Rattle.wg_types.specs.declared.limits.Maker.{Maker};
ghost use Rattle.wg_encoder.specs.Walked.{IsKnownOf};
ghost use Rattle.wg_encoder.specs.Kept.{commands_of, IsKeptOf, IsNaming};
ghost use Rattle.wg_encoder.specs.Naming.{AreNamedOnce, IsNamedBy, HasRoomFor};

use crate::known::RecorderState;
use crate::naming::Naming;
use crate::targets::RecorderTargets;
use std::alloc::Global;
use wg_types::NoMemory;
use wg_types::commands::{Command, On};
use wg_types::limits::Maker;

/// The kept commands in order, each with what it stands on, what is known of them, and what they name.
#[derive(Drop)]
pub struct KeptCommands {
    pub commands: Vec<(On, Command)>,
    pub known: RecorderState,
    pub naming: Naming,
}

impl KeptCommands {
    /// Nothing is kept.
    fn new(alloc: Global, targets: &RecorderTargets) -> Result<KeptCommands, NoMemory>
        ensures none { IfOk result (λ kept. kept.commands.items ≡ []) }
        ensures known { (maker : Maker) → IfOk result (λ kept. IsKnownOf maker targets.now [] kept.known) }
        ensures naming { IfOk result (λ kept. AreNamedOnce [] kept.naming) }
    {
        let known = RecorderState::new(alloc, targets)?;
        Ok(KeptCommands {
            commands: Vec::new(alloc),
            known,
            naming: Naming::new(alloc),
        })
    }

    /// Makes room for a command and notes it, and finds what it names: all of keeping it that may fail.
    fn prepare(
        &mut self,
        alloc: Global,
        maker: &Maker,
        targets: &RecorderTargets,
        on: On,
        command: &Command,
    ) -> Result<(), NoMemory>
        requires { IsKnownOf maker.now targets.now (reverse self.old.commands.items) self.old.known }
        ensures same { self.new.commands.items ≡ self.old.commands.items }
        ensures same_names { (commands : List (OnOf × CommandOf)) → AreNamedOnce commands self.old.naming → AreNamedOnce commands self.new.naming }
        ensures named { OnOk result (IsNamedBy command.now self.new.naming.last) }
        ensures names_room { OnOk result (HasRoomFor self.new.naming self.new.naming.last) }
        ensures room { OnOk result (vec_len self.new.commands < vec_capacity self.new.commands) }
        ensures ok { OnOk result (IsKnownOf maker.now targets.now ((on, command.now) ∷ reverse self.old.commands.items) self.new.known) }
        ensures err { OnErr result (self.new.known ≡ self.old.known) }
    {
        self.commands.reserve(1)?;
        self.naming.prepare(alloc, command)?;
        self.known.note(alloc, maker, targets, self.commands.as_slice(), on, command)
    }

    /// Adds a command.
    fn add(
        &mut self,
        alloc: Global,
        maker: &Maker,
        targets: &RecorderTargets,
        on: On,
        command: Command,
    ) -> Result<(), NoMemory>
        requires known { IsKnownOf maker.now targets.now (reverse self.old.commands.items) self.old.known }
        requires naming { AreNamedOnce self.old.commands.items self.old.naming }
        ensures known { IsKnownOf maker.now targets.now (reverse self.new.commands.items) self.new.known }
        ensures naming { AreNamedOnce self.new.commands.items self.new.naming }
        ensures ok { OnOk result (self.new.commands.items ≡ self.old.commands.items ++ (on, command) ∷ []) }
        ensures err { OnErr result (self.new.commands.items ≡ self.old.commands.items) }
    {
        if let Err(error) = self.prepare(alloc, maker, targets, on, &command) {
            drop(command);
            return Err(error);
        }
        self.naming.add();
        self.commands.push_reserved((on, command));
        Ok(())
    }
}

/// Makes a place for commands. What is made is large, and its room is got ready where a call begins: so this is
/// no part of `make`, which most often has nothing to do.
fn make_place(
    kept: &mut Option<Box<KeptCommands>>,
    alloc: Global,
    targets: &RecorderTargets,
) -> Result<(), NoMemory>
    requires { is_some kept.old ≡ false }
    ensures some { OnOk result (is_some kept.new ≡ true) }
    ensures same { commands_of kept.new ≡ commands_of kept.old }
    ensures kept { (maker : Maker) → IsKeptOf maker targets.now kept.old → IsKeptOf maker targets.now kept.new }
    ensures naming { IsNaming kept.old → IsNaming kept.new }
{
    let fresh = KeptCommands::new(alloc, targets)?;
    *kept = Some(Box::new(alloc, fresh)?);
    Ok(())
}

/// Makes what is kept, where nothing was.
fn make(
    kept: &mut Option<Box<KeptCommands>>,
    alloc: Global,
    targets: &RecorderTargets,
) -> Result<(), NoMemory>
    ensures some { OnOk result (is_some kept.new ≡ true) }
    ensures same { commands_of kept.new ≡ commands_of kept.old }
    ensures kept { (maker : Maker) → IsKeptOf maker targets.now kept.old → IsKeptOf maker targets.now kept.new }
    ensures naming { IsNaming kept.old → IsNaming kept.new }
{
    if kept.is_some() {
        return Ok(());
    }
    make_place(kept, alloc, targets)
}

/// Keeps a command.
pub fn keep(
    kept: &mut Option<Box<KeptCommands>>,
    alloc: Global,
    maker: &Maker,
    targets: &RecorderTargets,
    on: On,
    command: Command,
) -> Result<(), NoMemory>
    requires kept { IsKeptOf maker.now targets.now kept.old }
    requires naming { IsNaming kept.old }
    ensures kept { IsKeptOf maker.now targets.now kept.new }
    ensures naming { IsNaming kept.new }
    ensures ok { OnOk result (commands_of kept.new ≡ commands_of kept.old ++ (on, command) ∷ []) }
    ensures err { OnErr result (commands_of kept.new ≡ commands_of kept.old) }
{
    if let Err(error) = make(kept, alloc, targets) {
        drop(command);
        return Err(error);
    }
    let Some(held) = kept else {
        unreachable!();
    };
    held.add(alloc, maker, targets, on, command)
}
