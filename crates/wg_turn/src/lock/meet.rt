//! How passes tell each other what they have seen.
ghost use Rattle.std.specs.Prelude.{◌≡◌, ◌⊎◌};
ghost use mathlib.Core.List.{IsPrefix};
ghost use Rattle.wg_turn.specs.Turns.{longer, shorter};

use super::{Pass, SERVING, TurnLock};
use crate::logged::Logged;
use crate::turns::{Learn, Tell};

impl<S: Logged> TurnLock<S> {
    ghost use Rattle.wg_turn.specs.Passes.{IsPassOf, IsSound, IsSamePass, front_of, seen_since};

    /// Lets two passes tell each other what they have seen. It takes no memory and waits for
    /// nobody.
    pub fn meet(&self, pass: &mut Pass<S>, other: &mut Pass<S>)
        requires pass { IsPassOf self.now pass.old }
        requires other { IsPassOf self.now other.old }

        ensures pass { IsPassOf self.now pass.new × IsSamePass pass.old pass.new
            × IsSound S.history S.setup S.legal self.now pass.new }
        ensures other { IsPassOf self.now other.new × IsSamePass other.old other.new
            × IsSound S.history S.setup S.legal self.now other.new }

        // Both have then seen one history.
        ensures same { front_of S.history self.now pass.new
            ≡ front_of S.history self.now other.new }
        ensures one { (front_of S.history self.now pass.new ≡ front_of S.history self.now pass.old)
            ⊎ (front_of S.history self.now pass.new ≡ front_of S.history self.now other.old) }
        ensures seen { IsPrefix (front_of S.history self.now pass.old)
            (front_of S.history self.now pass.new) }
        ensures learned { IsPrefix (front_of S.history self.now other.old)
            (front_of S.history self.now pass.new) }
    {
        self.tell(pass, other);
        self.tell(other, pass);
    }

    /// Lets `to` see what `from` has seen.
    fn tell(&self, from: &mut Pass<S>, to: &mut Pass<S>)
        requires from { IsPassOf self.now from.old }
        requires to { IsPassOf self.now to.old }
        ensures from { IsPassOf self.now from.new × IsSamePass from.old from.new
            × (seen_since from.new ≡ seen_since from.old) }
        ensures to { IsPassOf self.now to.new × IsSamePass to.old to.new
            × IsSound S.history S.setup S.legal self.now to.new }
        ensures seen { seen_since to.new ≡ longer (seen_since from.old) (seen_since to.old) }
        ensures both { IsPrefix (shorter (seen_since from.old) (seen_since to.old))
            (seen_since to.new) }
    {
        let words = &self.table.shared;
        let note = words.split_seat::<Tell>(&mut from.seat);
        words.join_seat::<Tell>(&mut to.seat, note);
        words.load::<Learn<S>>(&mut to.seat, SERVING);
    }
}
