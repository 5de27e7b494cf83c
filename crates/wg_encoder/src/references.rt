//! The objects that commands name.
ghost use Rattle.std.specs.Prelude.{◌≡◌, ◌∷◌, ◌++◌, [], map, IfOk, OnOk};
ghost use Rattle.wg_types.specs.Commands.{named};
ghost use Rattle.wg_model.specs.Bundles.{references_within};

use std::alloc::Global;
use wg_types::NoMemory;
use wg_types::commands::{Command, On};
use wg_types::handles::{Handle, ObjRef};
use wg_types::items::Items;
use wg_types::refs::Gather;
use wg_types::wanted::Wanted;

/// The reference of each object.
#[derive(Drop)]
struct References;

impl Gather<Handle, ObjRef> for References {
    ghost gathers = { λ _ object. object.0.reference ∷ [] };

    #[tactic(auto, using(wg_trace::proofs::Beginnings::begins_one, wg_trace::proofs::Beginnings::begins_same))]
    fn gather(
        &self,
        found: &mut Vec<ObjRef>,
        object: &Handle,
        _wanted: Wanted,
    ) -> Result<(), NoMemory> {
        found.push(object.reference())?;
        Ok(())
    }
}

/// Adds the objects that a command names to a list.
#[tactic(auto, using(std::proofs::lemmas::List::Concat::flat_map_single))]
pub fn push_references(found: &mut Vec<ObjRef>, command: &Command) -> Result<(), NoMemory>
    ensures { OnOk result (found.new.items ≡ found.old.items ++ map (λ object. object.0.reference) (named command.now)) }
{
    command.gather(&References, found)
}

/// The number of each object.
#[derive(Drop)]
struct Numbers;

impl Gather<Handle, u64> for Numbers {
    ghost gathers = { λ _ object. object.0.reference.number ∷ [] };

    #[tactic(auto, using(wg_trace::proofs::Beginnings::begins_one, wg_trace::proofs::Beginnings::begins_same))]
    fn gather(
        &self,
        found: &mut Vec<u64>,
        object: &Handle,
        _wanted: Wanted,
    ) -> Result<(), NoMemory> {
        found.push(object.reference().number)?;
        Ok(())
    }
}

/// Adds the numbers of the objects that a command names to a list.
#[tactic(auto, using(std::proofs::lemmas::List::Concat::flat_map_single))]
pub fn push_numbers(found: &mut Vec<u64>, command: &Command) -> Result<(), NoMemory>
    ensures { OnOk result (found.new.items ≡ found.old.items ++ map (λ object. object.0.reference.number) (named command.now)) }
{
    command.gather(&Numbers, found)
}

/// The objects that commands name, as they come.
pub fn references_within(
    alloc: Global,
    commands: &[(On, Command)],
) -> Result<Items<ObjRef>, NoMemory>
    ensures { IfOk result (λ found. found ≡ references_within commands.now) }
{
    let mut found = Vec::new(alloc);
    for kept in commands {
        push_references(&mut found, &kept.1)?;
    }
    Ok(Items::from_vec(found))
}
