//! The top call under a gate, which holds lanes or counts their calls: that lanes run at once. It reads from memory and
//! writes there. What scripts and words show is for tests/cases.
use std::alloc::Global;
use std::sync::Wait;
use std::sync::atomic::{AtomicU64, Ordering};
use std::thread::Threads;
use wg_io::{MemSink, MemSource};
use wg_lanes::Gate;
use wg_top::run;
use wg_types::NoMemory;

/// The words of a command line.
fn words(alloc: Global, line: &str) -> Result<Vec<String>, NoMemory> {
    let mut words = Vec::new(alloc);
    for word in line.split_whitespace() {
        words.push(String::from_str(alloc, word)?)?;
    }
    Ok(words)
}

/// Runs words over these bytes: the number of the status, and whether this text was written.
fn run_over<T: Wait + Threads + Sync, G: Gate + Sync>(
    rt: &T,
    alloc: Global,
    line: &str,
    (script, text): (&str, &str),
    gate: &G,
) -> Result<(u8, bool), NoMemory> {
    let words = words(alloc, line)?;
    let bytes = Vec::from_slice(alloc, script.as_bytes())?;
    let mut source = MemSource::new(bytes, 4096, Vec::new(alloc));
    let mut sink = MemSink::new(alloc, 2000, 7, Vec::new(alloc))?;
    let number = run(rt, alloc, &words, &mut source, &mut sink, gate).into_number();
    Ok((number, sink.taken() == text.as_bytes()))
}

type Told = Result<(u8, bool), NoMemory>;

/// A submit of what clears a buffer, and at once its destroy, in two lanes.
const RACE: &str =
    "{\"budget\":1000000,\"phases\":[[[{\"do\":\"createBuffer\",\"size\":16,\"usage\":8,\"as\":\"b\"},{\"do\":\"createEncoder\",\"as\":\"e\"},{\"do\":\"clearBuffer\",\"on\":\"e\",\"buffer\":\"b\"},{\"do\":\"finish\",\"on\":\"e\",\"as\":\"c\"}]],[[{\"do\":\"submit\",\"buffers\":[\"c\"]}],[{\"do\":\"destroy\",\"object\":\"b\"}]]]}";

/// A gate that holds a lane of phase 1 until a call of another lane of it was made.
#[derive(Drop)]
struct Holding {
    held: u32,
    passed: AtomicU64,
    given_up: AtomicU64,
}

impl Gate for Holding {
    fn before(&self, phase: u32, lane: u32, call: u32) {
        let _ = call;
        if phase != 1 || lane != self.held {
            return;
        }
        for _ in 0..1_000_000_000u64 {
            if self.passed.load(Ordering::SeqCst) == 1 {
                return;
            }
        }
        self.given_up.store(1, Ordering::SeqCst);
    }

    fn after(&self, phase: u32, lane: u32, call: u32) {
        let _ = call;
        if phase == 1 && lane != self.held {
            self.passed.store(1, Ordering::SeqCst);
        }
    }
}

/// What is told where a lane is held, and whether it came to its call before a call of the other.
fn held<T: Wait + Threads + Sync>(rt: &T, alloc: Global, held: u32, text: &str) -> (Told, u64) {
    let gate = Holding {
        held,
        passed: AtomicU64::new(0),
        given_up: AtomicU64::new(0),
    };
    let told = run_over(rt, alloc, "run", (RACE, text), &gate);
    (told, gate.given_up.load(Ordering::SeqCst))
}

// Each several times, so that a gate that is passed after its call does not bring the order by luck.
#[test]
fn either_lane_may_be_first(rt: HostRuntime) {
    let destroyed =
        "history\n0 0 createBuffer made 0 valid\n1 0 createEncoder made 1 valid\n2 0 finish made 2 valid\n3 1 destroy plain\n4 0 submit plain fault validation 192 uncaptured\ntrace\nfree b 0\nend\n";
    let submitted =
        "history\n0 0 createBuffer made 0 valid\n1 0 createEncoder made 1 valid\n2 0 finish made 2 valid\n3 0 submit op 1\n4 1 destroy plain\ntrace\nstep 0 op 1 clearBuffer\nuse b 0 copy-dst\nacc write b 0 0 16\nend\n";
    for _ in 0..8 {
        for (lane, text) in [(0, destroyed), (1, submitted)] {
            assert!(rt; held(&rt, rt.alloc(), lane, text) == (Ok((0, true)), 0));
        }
    }
}

/// A gate that sums the calls of a phase, with weights of their lanes and numbers, and counts what comes out of turn:
/// before each call of a lane it was passed twice for each call before it, and after the call once more.
#[derive(Drop)]
struct Counting {
    phase: u32,
    before: AtomicU64,
    after: AtomicU64,
    first: AtomicU64,
    second: AtomicU64,
    third: AtomicU64,
    fourth: AtomicU64,
    wrong: AtomicU64,
}

/// The weight of a call.
fn weight(lane: u32, call: u32) -> u64 {
    1 + 100 * u64::from(lane) + u64::from(call)
}

impl Counting {
    /// How often it was passed by a lane, of which there are at most four.
    fn passed(&self, lane: u32) -> &AtomicU64 {
        match lane {
            0 => &self.first,
            1 => &self.second,
            2 => &self.third,
            _ => &self.fourth,
        }
    }

    /// Is passed once more by a lane, which is to be after so many times.
    fn pass(&self, lane: u32, times: u64) {
        if self.passed(lane).fetch_add(1, Ordering::SeqCst) != times {
            self.wrong.fetch_add(1, Ordering::SeqCst);
        }
    }
}

impl Gate for Counting {
    fn before(&self, phase: u32, lane: u32, call: u32) {
        if phase == self.phase {
            self.pass(lane, 2 * u64::from(call));
            self.before.fetch_add(weight(lane, call), Ordering::SeqCst);
        }
    }

    fn after(&self, phase: u32, lane: u32, call: u32) {
        if phase == self.phase {
            self.pass(lane, 2 * u64::from(call) + 1);
            self.after.fetch_add(weight(lane, call), Ordering::SeqCst);
        }
    }
}

/// The number of the status, both sums of a phase, and how often the gate was passed out of turn.
fn counted<T: Wait + Threads + Sync>(
    rt: &T,
    alloc: Global,
    line: &str,
    script: &str,
    phase: u32,
) -> Result<(u8, [u64; 3]), NoMemory> {
    let gate = Counting {
        phase,
        before: AtomicU64::new(0),
        after: AtomicU64::new(0),
        first: AtomicU64::new(0),
        second: AtomicU64::new(0),
        third: AtomicU64::new(0),
        fourth: AtomicU64::new(0),
        wrong: AtomicU64::new(0),
    };
    let (number, _) = run_over(rt, alloc, line, (script, ""), &gate)?;
    let before = gate.before.load(Ordering::SeqCst);
    let after = gate.after.load(Ordering::SeqCst);
    Ok((number, [before, after, gate.wrong.load(Ordering::SeqCst)]))
}

#[test]
fn the_gate_sees_each_call(rt: HostRuntime) {
    // Phase 0 of the race is a lane of 4 calls, and phase 1 has 2 lanes of one call; each of the 4 generated lanes
    // has 2 iterations of 5 calls.
    for (line, script, phase, sum) in [
        ("run", RACE, 0, 1 + 2 + 3 + 4),
        ("run", RACE, 1, 1 + 101),
        ("gen 2 4", "", 1, 4 * 55 + 10 * (100 + 200 + 300)),
    ] {
        let counted = counted(&rt, rt.alloc(), line, script, phase);
        assert!(rt; counted == Ok((0, [sum, sum, 0])), "{line}");
    }
}
