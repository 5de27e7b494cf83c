//! What is listed of the maps of buffers, where a buffer is mapped whole from its making.
use std::alloc::Global;
use wg_maps::Maps;
use wg_types::NoMemory;
use wg_types::mappings::{MapMode, MapState, Unmapped};

/// Mappings in which buffer 0 is mapped from the start, and a map of buffer 3 waits for operation 2.
fn filled(alloc: Global) -> Result<Maps, NoMemory> {
    let mut maps = Maps::new(alloc);
    maps.reserve(2)?;
    maps.start_mapped(0, 32)?;
    if matches!(maps.state(3), MapState::Unmapped) {
        maps.map(3, 10, MapMode::Read, 0, 8, 2)?;
    }
    Ok(maps)
}

/// Whether only that map is pending, as promise 10.
fn is_pending(maps: &Maps) -> bool {
    match maps.pending() {
        Ok(pending) => pending.as_slice() == [10u64].as_slice(),
        Err(NoMemory) => false,
    }
}

/// How many maps are due once operations are complete up to this one.
fn count_due(maps: &Maps, completed: u64) -> Result<usize, NoMemory> {
    let due = maps.due(completed)?;
    Ok(due.len())
}

type Told = (bool, [Result<usize, NoMemory>; 2], Unmapped);

/// What is pending, how many maps are due after operations 1 and 2, and what an unmap of buffer 0 tells, of mappings
/// that are dropped here.
fn of_maps(alloc: Global) -> Result<Told, NoMemory> {
    let mut maps = filled(alloc)?;
    let pending = is_pending(&maps);
    let due = [count_due(&maps, 1), count_due(&maps, 2)];
    Ok((pending, due, maps.unmap(0)))
}

#[test]
fn maps_wait_for_operations(rt: HostRuntime) {
    let told = (true, [Ok(0), Ok(1)], Unmapped::Written(0, 32));
    assert!(rt; of_maps(rt.alloc()) == Ok(told));
}
