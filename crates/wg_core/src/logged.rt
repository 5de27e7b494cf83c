//! A device's state with a log of what it answered and of its trace, as one whose callers take turns.
ghost use Rattle.std.specs.Prelude.{◌≡◌, ℕ, List, [], ◌++◌, map};
ghost use Rattle.wg_history.specs.Answers.{Run};
ghost use Rattle.wg_history.specs.Steps.{Steps};
ghost use Rattle.wg_history.specs.Traces.{Trace};
ghost use Rattle.wg_core.specs.Cores.{line_of};

use crate::device::Core;
use std::alloc::Global;
use std::marker::Model;
use wg_history::Refused;
use wg_history::events::{Event, Setup};
use wg_state::Spent;
use wg_turn::Logged;
use wg_types::limits::Limits;
use wg_types::replies::Reply;
use wg_types::steps::Item;
use wg_types::words::Verb;

/// What a log keeps of an entry: the number of the caller, the word of its call, and the reply.
#[derive(Drop)]
pub struct Line {
    pub who: u32,
    pub verb: Verb,
    pub reply: Reply,
}

/// The state of a device, and beside it a line of each entry and the whole trace. Contracts see what they
/// see of the state.
#[derive(Drop)]
pub struct LoggedCore {
    core: Core,
    lines: Vec<Line>,
    items: Vec<Item>,
}

impl Model for LoggedCore {
    ghost use Rattle.std.specs.Prelude.{◌≡◌, map};
    ghost use Rattle.wg_history.specs.Traces.{Trace};
    ghost use Rattle.wg_core.specs.Cores.{CoreValue, line_of};

    ghost Value = { CoreValue };

    ghost view = { λ l. l.core };

    ghost invariant = { λ l. record {
      lines_are : l.lines.items ≡ map line_of l.core.history;
      items_are : l.items.items ≡ Trace l.core.setup l.core.history;
    } };
}

impl LoggedCore {
    ghost use Rattle.wg_core.specs.Cores.{OrdersAgree, IsReleasedAsTraced};
    ghost use Rattle.wg_history.specs.ReleaseLaws.{ReleasedByThen};
    ghost use Rattle.wg_history.specs.Entries.{Entry};

    /// A device of this serial and these limits with nothing on it. Its resources may have `budget` bytes.
    pub fn new(alloc: Global, budget: u64, serial: u64, limits: &Limits) -> LoggedCore
        ensures setup { result.setup ≡ record { serial = serial; budget = budget; limits = limits.now } }
        ensures history { result.history ≡ [] }
    {
        LoggedCore {
            core: Core::new(alloc, budget, serial, limits),
            lines: Vec::new(alloc),
            items: Vec::new(alloc),
        }
    }

    /// A line of each entry so far.
    pub fn lines(&self) -> &[Line]
        ensures lines { result.now ≡ map line_of self.now.history }
        ensures run { Run self.now.setup self.now.history }
    {
        self.lines.as_slice()
    }

    /// The trace so far. That after an earlier entry is the beginning of it which has what was released
    /// by then.
    pub fn trace(&self) -> &[Item]
        ensures items { result.now ≡ Trace self.now.setup self.now.history }
        // Every order of the accesses to a cell that keeps the barriers agrees with a zeroed device.
        ensures orders { OrdersAgree result.now (Steps self.now.setup self.now.history) }
        // Each valid resource that was due after some entry, being destroyed or held no more with all its uses
        // complete, is released exactly once, and nothing else is. Every operation that uses it is complete by
        // then. No later step, and no clear, uses a part of it.
        ensures releases { (n : ℕ) → IsReleasedAsTraced self.now.setup self.now.history result.now n }
        // The trace of each beginning of the history is a beginning of this one, and has a release of an object
        // exactly where it was released by then.
        ensures by_then { (before later : List Entry) (n : ℕ) → self.now.history ≡ before ++ later → ReleasedByThen self.now.setup before result.now n }
    {
        self.items.as_slice()
    }
}

impl Logged for LoggedCore {
    type Setup = Setup;

    type Call = Event;

    type Reply = Reply;

    type Left = Spent;

    ghost setup = { λ logged. logged.setup };

    ghost history = { λ logged. logged.history };

    ghost legal = { Run };

    fn act(&mut self, who: u32, call: Event) -> Result<(Reply, Spent), Refused<Event>> {
        if self.lines.reserve(1).is_err() {
            return Err(Refused { call });
        }
        let verb = call.verb();
        let mut spent = Spent::new(*self.items.allocator());
        let (reply, copy) = self
            .core
            .step_for_log(who, call, &mut self.items, &mut spent)?;
        self.lines.push_reserved(Line {
            who,
            verb,
            reply: copy,
        });
        Ok((reply, spent))
    }

    ghost own_legal = { λ logged. logged.run };
}
