//! Usage scopes that are kept, part by part.
use bitflags::Flags;
use std::alloc::Global;
use wg_scopes::Scope;
use wg_types::NoMemory;
use wg_types::parts::{Aspect, Part, PartRun};
use wg_types::usages::Usages;

fn layers(lo: u32, hi: u32) -> PartRun {
    PartRun::Texture {
        object: 7,
        aspect: Aspect::Color,
        mip: 2,
        lo,
        hi,
    }
}

/// Uses 256 layers as a constant, from the last to the first.
fn use_layers(scope: &mut Scope) -> Result<(), NoMemory> {
    for layer in 0..256u32 {
        scope.use_part(layers(255 - layer, 256 - layer), Usages::CONSTANT)?;
    }
    Ok(())
}

/// Whether all layers are one row, how many rows an object has that is not used, and the verdict.
fn of_layers(alloc: Global) -> (Result<(), NoMemory>, bool, usize, Option<Part>) {
    let mut scope = Scope::new(alloc);
    let used = use_layers(&mut scope);
    let row = [(layers(0, 256), Usages::CONSTANT)];
    let one = scope.rows_of(7) == row.as_slice();
    (used, one, scope.rows_of(8).len(), scope.verdict())
}

/// A scope has one row for the parts that are used alike, and an object that is not used has none.
#[test]
fn layers_used_alike_are_one_row(rt: HostRuntime) {
    assert!(rt; of_layers(rt.alloc()) == (Ok(()), true, 0, None));
}

/// A scope in which one buffer is written as storage and read as a constant.
fn clashing(alloc: Global) -> Result<Scope, NoMemory> {
    let buffer = PartRun::Buffer { object: 0 };
    let mut scope = Scope::new(alloc);
    scope.use_part(buffer, Usages::STORAGE)?;
    scope.use_part(buffer, Usages::CONSTANT)?;
    Ok(scope)
}

/// An empty scope into which that one was merged.
fn merged(alloc: Global) -> Result<Scope, NoMemory> {
    let scope = clashing(alloc)?;
    let mut merged = Scope::new(alloc);
    merged.merge(&scope)?;
    Ok(merged)
}

/// Its verdict, and whether it has both uses in one row.
fn of_merged(alloc: Global) -> Result<(Option<Part>, bool), NoMemory> {
    let merged = merged(alloc)?;
    let verdict = merged.verdict();
    let both = Usages::STORAGE.union(Usages::CONSTANT);
    let row = (PartRun::Buffer { object: 0 }, both);
    Ok((verdict, merged.into_rows().as_slice() == [row].as_slice()))
}

/// A scope that is merged into an empty one keeps its verdict.
#[test]
fn storage_and_constant_clash(rt: HostRuntime) {
    let clash = Part::Buffer { object: 0 };
    assert!(rt; of_merged(rt.alloc()) == Ok((Some(clash), true)));
}
