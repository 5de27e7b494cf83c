//! What waits for operations, and what of it is due.
use std::alloc::Global;
use wg_queue::Queue;
use wg_types::NoMemory;

/// Whether promises were listed that are these.
fn are(listed: Result<Vec<u64>, NoMemory>, promises: &[u64]) -> bool {
    match listed {
        Ok(listed) => listed.as_slice() == promises,
        Err(NoMemory) => false,
    }
}

/// Whether each of three promises is due at once, asked before the first operation, after it and after the
/// second; and then what waits, before the first is complete and after.
fn of_queue(alloc: Global) -> ([Result<bool, NoMemory>; 3], [bool; 4]) {
    let mut queue = Queue::new(alloc);
    let idle = queue.work_done(0);
    queue.issue();
    let first = queue.work_done(2);
    queue.issue();
    let second = queue.work_done(4);
    let waits = are(queue.waiting(), &[2, 4]);
    let due = are(queue.due(1), &[2]);
    let completed = queue.complete(1);
    let rest = are(queue.waiting(), &[4]);
    ([idle, first, second], [waits, due, completed, rest])
}

#[test]
fn promises_wait_for_operations(rt: HostRuntime) {
    let asked = [Ok(true), Ok(false), Ok(false)];
    assert!(rt; of_queue(rt.alloc()) == (asked, [true; 4]));
}

/// What a queue that issued one operation answers to completions of the numbers 0, 1 and 2.
fn completions(alloc: Global) -> [bool; 3] {
    let mut queue = Queue::new(alloc);
    queue.issue();
    [queue.complete(0), queue.complete(1), queue.complete(2)]
}

#[test]
fn only_what_was_issued_is_completed(rt: HostRuntime) {
    assert!(rt; completions(rt.alloc()) == [false, true, false]);
}
