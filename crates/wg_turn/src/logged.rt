//! States that keep a history.
ghost use Rattle.std.specs.Prelude.{◌≡◌, List, [], ◌∷◌, ◌++◌, IfOk, IfErr};
ghost use Rattle.wg_entry.specs.declared.Entry.{Entry};
ghost use Rattle.wg_turn.specs.Entries.{entry};

use wg_entry::Refused;

/// A state that keeps a history of the calls that it answered, with the number of each caller.
pub trait Logged: Drop {
    /// What no call changes.
    type Setup;

    /// What is asked of the state.
    type Call;

    /// What it answers.
    type Reply;

    /// What a call is done with, and may be long in the dropping: that is left until the turn has passed on.
    type Left: Drop;

    ghost setup: { Self → Self.Setup };

    ghost history: { Self → List (Entry Self.Call Self.Reply) };

    ghost legal: { Self.Setup → List (Entry Self.Call Self.Reply) → Type 0 };

    /// Answers a call, or hands it back where there is no memory.
    fn act(
        &mut self,
        who: u32,
        call: Self::Call,
    ) -> Result<(Self::Reply, Self::Left), Refused<Self::Call>>
        ensures setup { setup self.new ≡ setup self.old }
        ensures done { IfOk result (λ r. history self.new ≡ history self.old ++ entry who call r.0 ∷ []) }
        ensures refused { IfErr result (λ e.
            (history self.new ≡ history self.old) × (e.call ≡ call)) };

    /// The history of a state is legal.
    ghost own_legal: { (s : Self) → legal (setup s) (history s) };
}
