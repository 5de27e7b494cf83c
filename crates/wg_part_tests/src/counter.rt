//! A counter that keeps its history.
ghost use Rattle.std.specs.Prelude.{◌≡◌, true};
ghost use Rattle.wg_part_tests.specs.Counters.{total_after, replays};

use wg_turn::{Entry, Logged, Refused};

/// What it counts from, what it has reached, and the calls that it answered. It answers no more
/// than its limit, as if there were no memory.
#[derive(Drop)]
pub struct Counter {
    pub start: u64,
    pub total: u64,
    pub log: Vec<Entry<u64, u64>>,
    pub limit: usize,
    ghost kept: { total ≡ total_after start log.items },
    pub ghost replayed: { replays start log.items ≡ true },
}

impl Logged for Counter {
    type Setup = u64;

    type Call = u64;

    type Reply = u64;

    type Left = ();

    ghost setup = { λ s. s.start };

    ghost history = { λ s. s.log.items };

    ghost legal = { λ start log. replays start log ≡ true };

    ghost own_legal = { λ s. s.replayed };

    fn act(&mut self, who: u32, call: u64) -> Result<(u64, ()), Refused<u64>> {
        if self.log.len() >= self.limit || self.log.reserve(1).is_err() {
            return Err(Refused { call });
        }
        let reply = self.total.wrapping_add(call);
        self.total = reply;
        self.log.push_reserved(Entry {
            who,
            event: call,
            reply,
        });
        Ok((reply, ()))
    }
}
