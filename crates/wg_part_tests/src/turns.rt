//! Callers of one counter, in one thread and in two.
ghost use Rattle.std.specs.Prelude.{◌≡◌, ◌+◌, ◌^◌, ◌<◌, ◌≤◌, IfSome, vec_len, vec_capacity};
ghost use mathlib.Core.List.{IsPrefix};
ghost use Rattle.wg_turn.specs.Passes.{IsPassOf, callers_of, calls_of, front_of, number_of};
ghost use Rattle.wg_turn.specs.Closings.{passes_of};

use crate::counter::Counter;
use std::alloc::Global;
use std::sync::Wait;
use std::thread;
use std::thread::Threads;
use wg_turn::{Closed, Entry, Pass, Refused, TurnLock};

/// How often each of two threads calls.
const TIMES: u64 = 2000;

fn counter(alloc: Global, limit: usize) -> Counter {
    Counter {
        start: 5,
        total: 5,
        log: Vec::new(alloc),
        limit,
    }
}

/// What a call answered, or the call that was refused.
fn plain(answer: Result<u64, Refused<u64>>) -> Result<u64, u64> {
    match answer {
        Ok(reply) => Ok(reply),
        Err(refused) => Err(refused.call),
    }
}

type Acts = (Result<u64, u64>, Result<u64, u64>, Result<u64, u64>);

/// The answers of a counter to a call of the first caller, to one more of it, and to one of the second; and then
/// the number and the calls of both.
fn acts<R: Wait>(rt: &R, alloc: Global, limit: usize) -> Option<(Acts, [(u32, u64); 2])> {
    let (lock, _, mut one, mut other) = opened(alloc, limit)?;
    let a = lock.act(rt, &mut one, 10);
    let b = lock.act(rt, &mut one, 20);
    let c = lock.act(rt, &mut other, 30);
    let first = (one.number(), one.calls());
    let second = (other.number(), other.calls());
    Some(((plain(a), plain(b), plain(c)), [first, second]))
}

#[test]
fn two_callers_act_in_turn(rt: HostRuntime) {
    let answers = (Ok(15), Ok(35), Ok(65));
    assert!(rt; acts(&rt, rt.alloc(), usize::MAX) == Some((answers, [(0, 2), (1, 1)])));
}

#[test]
fn a_refused_call_passes_the_turn_on(rt: HostRuntime) {
    let answers = (Ok(15), Err(20), Err(30));
    assert!(rt; acts(&rt, rt.alloc(), 1) == Some((answers, [(0, 2), (1, 1)])));
}

/// The first pass acts and tells the second, which acts then.
fn told<R: Wait>(
    rt: &R,
    lock: &TurnLock<Counter>,
    first: &mut Pass<Counter>,
    second: &mut Pass<Counter>,
) -> bool
    requires passes { IsPassOf lock.now first.old × IsPassOf lock.now second.old }
    requires room { (calls_of first.old < 2 ^ 40) × (calls_of second.old < 2 ^ 40) }
    ensures passes { IsPassOf lock.now first.new × IsPassOf lock.now second.new }
    ensures numbers { (number_of first.new ≡ number_of first.old)
        × (number_of second.new ≡ number_of second.old) }
    ensures begins { IsPrefix (front_of (λ c. c.log.items) lock.now first.new)
        (front_of (λ c. c.log.items) lock.now second.new) }
{
    let a = lock.act(rt, first, 10);
    lock.meet(first, second);
    let b = lock.act(rt, second, 20);
    a.is_ok() && b.is_ok()
}

/// A lock with its two passes, and the list that had them.
fn opened(
    alloc: Global,
    limit: usize,
) -> Option<
    (
        TurnLock<Counter>,
        Vec<Pass<Counter>>,
        Pass<Counter>,
        Pass<Counter>,
    ),
>
    ensures lock { IfSome result (λ t.
        (callers_of t.0 ≡ 2) × (vec_len t.1 ≡ 0) × (2 ≤ vec_capacity t.1)) }
    ensures first { IfSome result (λ t.
        IsPassOf t.0 t.2 × (number_of t.2 ≡ 0) × (calls_of t.2 ≡ 0)) }
    ensures second { IfSome result (λ t.
        IsPassOf t.0 t.3 × (number_of t.3 ≡ 1) × (calls_of t.3 ≡ 0)) }
{
    let (lock, mut passes) = TurnLock::open(alloc, counter(alloc, limit), 2).ok()?;
    let second = passes.pop().unwrap();
    let first = passes.pop().unwrap();
    Some((lock, passes, first, second))
}

/// The lock after one call of each pass, with a meet between them.
fn closed_after<R: Wait>(rt: &R, alloc: Global) -> Option<Closed<Counter>>
    ensures { IfSome result (λ c. passes_of c ≡ 2) }
{
    let (lock, mut passes, mut first, mut second) = opened(alloc, usize::MAX)?;
    if !told(rt, &lock, &mut first, &mut second) {
        return None;
    }
    passes.push_reserved(first);
    passes.push_reserved(second);
    Some(lock.close(passes))
}

type Line = (u32, u64, u64);

/// How many entries and callers there were, the total, and of each of two entries who made it, its call and its
/// reply.
fn told_of(closed: &Closed<Counter>) -> Option<(u64, u32, u64, [Line; 2])> {
    let state = closed.state();
    match state.log.as_slice() {
        [a, b] => Some((
            closed.entries(),
            closed.callers(),
            state.total,
            [(a.who, a.event, a.reply), (b.who, b.event, b.reply)],
        )),
        _ => None,
    }
}

/// The same, of a counter that is dropped here.
fn told_after<R: Wait>(rt: &R, alloc: Global) -> Option<(u64, u32, u64, [Line; 2])> {
    let closed = closed_after(rt, alloc)?;
    told_of(&closed)
}

#[test]
fn two_callers_close_with_an_entry_each(rt: HostRuntime) {
    let lines = [(0, 10, 15), (1, 20, 35)];
    assert!(rt; told_after(&rt, rt.alloc()) == Some((2, 2, 35, lines)));
}

/// How many entries one caller made.
fn made_by(log: &[Entry<u64, u64>], who: u32) -> u64 {
    log.iter().filter(|entry| entry.who == who).count() as u64
}

/// Calls the counter, again and again.
fn lane<R: Wait>(
    rt: &R,
    lock: &TurnLock<Counter>,
    mut pass: Pass<Counter>,
    amount: u64,
) -> Pass<Counter>
    requires { IsPassOf lock.now pass × (calls_of pass ≡ 0) }
    ensures { IsPassOf lock.now result × (number_of result ≡ number_of pass) }
{
    for _ in 0..TIMES {
        if lock.act(rt, &mut pass, amount).is_err() {
            break;
        }
    }
    pass
}

/// The lock after the calls of two threads.
fn by_threads<R: Threads + Wait + Sync>(rt: &R, alloc: Global) -> Option<Closed<Counter>>
    ensures { IfSome result (λ c. passes_of c ≡ 2) }
{
    let (lock, mut passes, first, second) = opened(alloc, usize::MAX)?;
    let shared = &lock;
    let (first, second) = thread::join(
        rt,
        || -> Pass<Counter>
            requires { IsPassOf shared.now first × (calls_of first ≡ 0) }
            ensures { IsPassOf shared.entry.now result × (number_of result ≡ number_of first) }
        { lane(rt, shared, first, 1) },
        || -> Pass<Counter>
            requires { IsPassOf shared.now second × (calls_of second ≡ 0) }
            ensures { IsPassOf shared.entry.now result × (number_of result ≡ number_of second) }
        { lane(rt, shared, second, 2) },
    );
    passes.push_reserved(first);
    passes.push_reserved(second);
    Some(lock.close(passes))
}

/// How many entries and callers there were, the total, and how many entries each caller made.
fn told_by_threads<R: Threads + Wait + Sync>(
    rt: &R,
    alloc: Global,
) -> Option<(u64, u32, u64, [u64; 2])> {
    let closed = by_threads(rt, alloc)?;
    let state = closed.state();
    let log = state.log.as_slice();
    Some((
        closed.entries(),
        closed.callers(),
        state.total,
        [made_by(log, 0), made_by(log, 1)],
    ))
}

#[test]
fn two_threads_close_with_all_entries(rt: HostRuntime) {
    let wanted = (2 * TIMES, 2, 5 + 3 * TIMES, [TIMES; 2]);
    assert!(rt; told_by_threads(&rt, rt.alloc()) == Some(wanted));
}
