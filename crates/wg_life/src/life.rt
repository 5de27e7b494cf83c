//! What becomes of objects.
ghost use Rattle.std.specs.Prelude.{◌≡◌, ℕ, ◌+◌, ◌≤◌, ◌<◌, ◌∷◌, ◌++◌, [], ◌==◌, nat_le, nat_lt, length, map, true, false, None, is_some, IfSome, vec_len, vec_capacity, OnOk, not, ◌&&◌};
ghost use Rattle.std.specs.VecDeque.{deque_capacity};
ghost use Rattle.wg_fading.specs.Fading.{was_let_go};
ghost use Rattle.wg_model.specs.Holding.{is_among};
ghost use Rattle.wg_orders.specs.Trace.{free};
ghost use Rattle.wg_holders.specs.Holders.{HoldersValue, no_holdings, mark_at, is_held, with_ended, with_consumed, with_dropped, Marks, Falls, AreHere};
ghost use Rattle.wg_life.specs.Lives.{LifeValue, new_row, row_at, with_destroyed, with_use, with_release, is_due, releases, live_bytes, live_count, with_object, is_dead, Notes, AreDead};
ghost use Rattle.wg_life.specs.Waits.{IsGone, IsTidy};

use crate::live::{Live, add_row, let_key_go};
use crate::rows::{Made, Row, mark_destroyed, mark_use, row_in};
use crate::waiting::{self, Waiting, lose, lose_all};
use std::alloc::Global;
use std::collections::VecDeque;
use std::marker::Model;
use wg_fading::Fading;
use wg_holders::{Holders, Mark};
use wg_types::NoMemory;
use wg_types::steps::Item;

/// What becomes of the objects of a device. Contracts see what was noted of each object by its number,
/// who holds which, which were let go, and how many bytes resources may have. A note of a number that no
/// object has changes nothing.
#[derive(Drop)]
pub struct Life {
    rows: Fading<Row>,
    /// Which objects are known to be gone; those that are resources were listed when they were marked.
    lost: Fading<bool>,
    holders: Holders,
    waiting: Waiting,
    live: Live,
    budget: u64,
    spare: usize,
    /// How many objects were not let go; no clause speaks of it.
    kept: usize,
}

impl Model for Life {
    ghost use Rattle.std.specs.Prelude.{◌≡◌, ◌+◌, ◌≤◌, [], vec_capacity};
    ghost use Rattle.std.specs.VecDeque.{deque_capacity};
    ghost use Rattle.wg_life.specs.Lives.{LifeValue, live_bytes, live_count, AreDead};
    ghost use Rattle.wg_life.specs.Living.{HasPlacesFor, IsKept};
    ghost use Rattle.wg_life.specs.Waits.{IsGone, IsTidy};

    ghost Value = { LifeValue };

    ghost view = { λ l. record { rows = l.rows.items; holdings = l.holders.holdings; gone = l.holders.gone; budget = l.budget; spare = l.spare; room = l.holders.room } };

    ghost invariant = { λ l. record {
      tidy : IsTidy l.rows.items l.lost.items l.waiting.listed.items;
      marks : IsGone l.rows.items l.holders.holdings l.lost.items;
      dead : AreDead l.rows.items l.holders.holdings l.holders.gone;
      rows_gone : l.rows.gone ≡ l.holders.gone;
      lost_gone : l.lost.gone ≡ l.holders.gone;
      keys_gone : l.live.keys.gone ≡ l.holders.gone;
      none_fell : l.holders.fallen ≡ [];
      kept : IsKept l.rows.items l.live;
      within : live_bytes l.rows.items ≤ l.budget;
      none_due : l.waiting.due.items ≡ [];
      rows_fit : l.spare ≤ l.rows.spare;
      lost_fit : l.spare ≤ l.lost.spare;
      listed_fit : live_count l.rows.items + l.spare ≤ deque_capacity l.waiting.listed;
      due_fit : live_count l.rows.items + l.spare ≤ vec_capacity l.waiting.due;
      live_fit : HasPlacesFor l.live l.spare;
      holders_fit : l.spare ≤ l.holders.spare;
    } };
}

/// Marks what fell as gone, and forgets that it fell.
#[tactic(auto, using(crate::proofs::Gone::gone_fell))]
fn note_fallen(
    rows: &Fading<Row>,
    lost: &mut Fading<bool>,
    waiting: &mut Waiting,
    holders: &mut Holders,
)
    requires here { AreHere rows.now.gone holders.old.fallen }
    requires lost_gone { lost.old.gone ≡ rows.now.gone }
    requires tidy { IsTidy rows.now.items lost.old.items waiting.old.listed.items }
    requires room { live_count rows.now.items ≤ deque_capacity waiting.old.listed }
    ensures marks { (before : HoldersValue) → before.fallen ≡ [] → Falls before holders.old → length holders.old.holdings.marks ≡ length before.holdings.marks → IsGone rows.now.items before.holdings lost.old.items → IsGone rows.now.items holders.new.holdings lost.new.items }
    ensures tidy { IsTidy rows.now.items lost.new.items waiting.new.listed.items }
    ensures lost_gone { lost.new.gone ≡ lost.old.gone }
    ensures lost_spare { lost.new.spare ≡ lost.old.spare }
    ensures listed_room { deque_capacity waiting.old.listed ≤ deque_capacity waiting.new.listed }
    ensures due { waiting.new.due ≡ waiting.old.due }
    ensures holdings { holders.new.holdings ≡ holders.old.holdings }
    ensures fallen { holders.new.fallen ≡ [] }
    ensures gone { holders.new.gone ≡ holders.old.gone }
    ensures spare { holders.new.spare ≡ holders.old.spare }
    ensures holders_room { holders.new.room ≡ holders.old.room }
{
    lose_all(
        rows,
        lost,
        &mut waiting.listed,
        &mut waiting.dead,
        holders.fallen(),
    );
    holders.clear();
}

impl Life {
    /// No objects, and so many bytes for resources.
    #[tactic(auto, using(crate::proofs::Tidy::tidy_none, crate::proofs::Gone::gone_none))]
    pub fn new(alloc: Global, budget: u64) -> Life
        ensures rows { result.rows ≡ [] }
        ensures holdings { result.holdings ≡ no_holdings }
        ensures budget { result.budget ≡ budget }
        ensures gone { result.gone ≡ [] }
    {
        Life {
            rows: Fading::new(alloc),
            lost: Fading::new(alloc),
            holders: Holders::new(alloc),
            waiting: Waiting {
                listed: VecDeque::new(alloc),
                due: Vec::new(alloc),
                dead: Vec::new(alloc),
            },
            live: Live::new(alloc),
            budget,
            spare: 0,
            kept: 0,
        }
    }

    /// Makes room for one object more with so many links.
    pub fn reserve(&mut self, links: u64) -> Result<(), NoMemory>
        ensures rows { self.new.rows ≡ self.old.rows }
        ensures holdings { self.new.holdings ≡ self.old.holdings }
        ensures budget { self.new.budget ≡ self.old.budget }
        ensures gone { self.new.gone ≡ self.old.gone }
        ensures spare { self.old.spare ≤ self.new.spare }
        ensures rooms { self.new.room ≡ self.old.room }
        ensures place { OnOk result (0 < self.new.spare) }
        ensures room { OnOk result (links < self.new.room) }
    {
        self.holders.reserve(links)?;
        if self.spare == 0 {
            self.rows.reserve(1)?;
            self.lost.reserve(1)?;
            self.live.reserve()?;
            let Some(more) = (self.live.count() as usize).checked_add(1) else {
                return Err(NoMemory);
            };
            self.waiting
                .listed
                .reserve(more - self.waiting.listed.len())?;
            self.waiting.due.reserve(more)?;
            self.waiting.dead.reserve(
                self.kept
                    .saturating_add(1)
                    .saturating_sub(self.waiting.dead.len()),
            )?;
            self.spare = 1;
        }
        Ok(())
    }

    /// Whether the budget has so many bytes more.
    pub fn fits(&self, bytes: u64) -> bool
        ensures { result ≡ nat_le (live_bytes self.now.rows + bytes) self.now.budget }
    {
        bytes <= self.budget - self.live.bytes()
    }

    /// How many resources are not released.
    pub fn live(&self) -> u64
        ensures { result ≡ live_count self.now.rows }
    {
        self.live.count()
    }

    /// Adds the next object.
    pub fn add(&mut self, made: Made)
        requires place { 0 < self.old.spare }
        requires room { length made.links.refers + length made.links.names < self.old.room }
        requires fits { IfSome made.resource (λ resource. live_bytes self.old.rows + resource.bytes ≤ self.old.budget) }
        requires refers_back { (n : ℕ) → is_among made.links.refers n ≡ true → n < length self.old.rows }
        requires names_back { (n : ℕ) → is_among made.links.names n ≡ true → n < length self.old.rows }
        requires refers_held { (n : ℕ) → is_among made.links.refers n ≡ true → is_held self.old.holdings n ≡ true }
        requires names_held { (n : ℕ) → is_among made.links.names n ≡ true → is_held self.old.holdings n ≡ true }
        ensures rows { self.new.rows ≡ self.old.rows ++ new_row made.resource ∷ [] }
        ensures holdings { self.new.holdings ≡ with_object made self.old.holdings }
        ensures budget { self.new.budget ≡ self.old.budget }
        ensures gone { self.new.gone ≡ self.old.gone }
        ensures spare { self.old.spare ≤ self.new.spare + 1 }
        ensures room { self.old.room ≤ self.new.room + (length made.links.refers + length made.links.names + 1) }
    {
        add_row(&mut self.rows, &mut self.live, made.resource);
        let _ = self.lost.push(false);
        self.spare -= 1;
        self.kept = self.kept.saturating_add(1);
        self.holders.add(made.encoder, made.links);
    }

    /// Notes a finish of an encoder.
    pub fn ended(&mut self, encoder: u64)
        requires { was_let_go self.old.gone encoder ≡ false }
        ensures marks { Marks (λ n. with_ended (encoder == n)) self.old.holdings self.new.holdings }
        ensures rows { self.new.rows ≡ self.old.rows }
        ensures budget { self.new.budget ≡ self.old.budget }
        ensures gone { self.new.gone ≡ self.old.gone }
        ensures spare { self.new.spare ≡ self.old.spare }
        ensures room { self.new.room ≡ self.old.room }
    {
        self.holders.ended(encoder);
        note_fallen(
            &self.rows,
            &mut self.lost,
            &mut self.waiting,
            &mut self.holders,
        );
    }

    /// Notes that a submit listed a command buffer.
    pub fn consumed(&mut self, buffer: u64)
        requires { was_let_go self.old.gone buffer ≡ false }
        ensures marks { Marks (λ n. with_consumed (buffer == n)) self.old.holdings self.new.holdings }
        ensures rows { self.new.rows ≡ self.old.rows }
        ensures budget { self.new.budget ≡ self.old.budget }
        ensures gone { self.new.gone ≡ self.old.gone }
        ensures spare { self.new.spare ≡ self.old.spare }
        ensures room { self.new.room ≡ self.old.room }
    {
        self.holders.consumed(buffer);
        note_fallen(
            &self.rows,
            &mut self.lost,
            &mut self.waiting,
            &mut self.holders,
        );
    }

    /// Notes the drop of an object that was not dropped before.
    pub fn dropped(&mut self, number: u64)
        requires here { was_let_go self.old.gone number ≡ false }
        requires undropped { (mark_at self.old.holdings.marks number).dropped ≡ None }
        ensures marks { Marks (λ n. with_dropped (length self.old.holdings.marks) (number == n)) self.old.holdings self.new.holdings }
        ensures rows { self.new.rows ≡ self.old.rows }
        ensures budget { self.new.budget ≡ self.old.budget }
        ensures gone { self.new.gone ≡ self.old.gone }
        ensures spare { self.new.spare ≡ self.old.spare }
        ensures room { self.new.room ≡ self.old.room }
    {
        self.holders.dropped(number);
        note_fallen(
            &self.rows,
            &mut self.lost,
            &mut self.waiting,
            &mut self.holders,
        );
    }

    /// Notes a destroy.
    pub fn destroyed(&mut self, number: u64)
        requires { was_let_go self.old.gone number ≡ false }
        ensures rows { Notes (λ n. with_destroyed (number == n)) self.old.rows self.new.rows }
        ensures holdings { self.new.holdings ≡ self.old.holdings }
        ensures budget { self.new.budget ≡ self.old.budget }
        ensures gone { self.new.gone ≡ self.old.gone }
        ensures spare { self.new.spare ≡ self.old.spare }
        ensures room { self.new.room ≡ self.old.room }
    {
        mark_destroyed(&mut self.rows, number);
        lose(
            &self.rows,
            &mut self.lost,
            &mut self.waiting.listed,
            &mut self.waiting.dead,
            number,
        );
    }

    /// Notes that an operation uses an object.
    pub fn used(&mut self, number: u64, op: u64)
        requires { was_let_go self.old.gone number ≡ false }
        ensures rows { Notes (λ n. with_use op (number == n)) self.old.rows self.new.rows }
        ensures holdings { self.new.holdings ≡ self.old.holdings }
        ensures budget { self.new.budget ≡ self.old.budget }
        ensures gone { self.new.gone ≡ self.old.gone }
        ensures spare { self.new.spare ≡ self.old.spare }
        ensures room { self.new.room ≡ self.old.room }
    {
        mark_use(&mut self.rows, number, op);
    }

    /// Releases what is due where all operations up to this one are complete, and was not released
    /// before, and adds that to a trace in room that there is.
    pub fn release(&mut self, completed: u64, trace: &mut Vec<Item>)
        requires { vec_len trace.old + live_count self.old.rows ≤ vec_capacity trace.old }
        ensures items { trace.new.items ≡ trace.old.items ++ map free (releases self.old completed) }
        ensures capacity { vec_capacity trace.new ≡ vec_capacity trace.old }
        ensures rows { Notes (λ n. with_release (is_due self.old completed n)) self.old.rows self.new.rows }
        ensures holdings { self.new.holdings ≡ self.old.holdings }
        ensures budget { self.new.budget ≡ self.old.budget }
        ensures gone { self.new.gone ≡ self.old.gone }
        ensures spare { self.new.spare ≡ self.old.spare }
        ensures room { self.new.room ≡ self.old.room }
    {
        waiting::release(
            &mut self.rows,
            &self.lost,
            &mut self.live,
            &mut self.waiting,
            completed,
            trace,
        );
    }

    /// What was noted of an object that was not let go; of one that there is not, nothing.
    pub fn row(&self, number: u64) -> Row
        requires { was_let_go self.now.gone number ≡ false }
        ensures { result ≡ row_at self.now.rows number }
    {
        row_in(&self.rows, number)
    }

    /// What was noted of an object as a holder; of one that there is not, nothing.
    pub fn mark(&self, number: u64) -> Mark
        requires { was_let_go self.now.gone number ≡ false }
        ensures { result ≡ mark_at self.now.holdings.marks number }
    {
        self.holders.mark(number)
    }

    /// Whether an object was dropped, be it let go.
    pub fn is_dropped(&self, number: u64) -> bool
        ensures { result ≡ is_some (mark_at self.now.holdings.marks number).dropped }
    {
        self.holders.is_dropped(number)
    }

    /// Whether an object was not let go, of the numbers that objects have.
    pub fn is_kept(&self, number: u64) -> bool
        ensures { result ≡ nat_lt number (length self.now.rows) && not (was_let_go self.now.gone number) }
    {
        self.rows.is_kept(number)
    }

    /// Whether an object is held, be it let go.
    pub fn is_held(&self, number: u64) -> bool
        ensures { result ≡ is_held self.now.holdings number }
    {
        self.holders.is_held(number)
    }

    /// Whether an object is kept that nobody can reach: it was dropped, is not held, and is no resource
    /// that is not released.
    pub fn is_dead(&self, number: u64) -> bool
        ensures { result ≡ is_dead self.now number }
    {
        if !self.is_kept(number) || !self.is_dropped(number) || self.is_held(number) {
            return false;
        }
        let row = self.row(number);
        row.resource.is_none() || row.released
    }

    /// What was let go is dead.
    pub fn dead_holds(&self)
        ensures { AreDead self.now.rows self.now.holdings self.now.gone }
    {
        let _ = &self.holders;
    }

    /// How many were noted that may be dead.
    pub fn hints(&self) -> usize {
        self.waiting.dead.len()
    }

    /// Takes out one that may be dead of those that were noted as such, if there is one.
    pub fn next_hint(&mut self) -> Option<u64>
        ensures rows { self.new.rows ≡ self.old.rows }
        ensures holdings { self.new.holdings ≡ self.old.holdings }
        ensures budget { self.new.budget ≡ self.old.budget }
        ensures gone { self.new.gone ≡ self.old.gone }
        ensures spare { self.new.spare ≡ self.old.spare }
        ensures room { self.new.room ≡ self.old.room }
    {
        self.waiting.dead.pop()
    }

    /// Lets an object go that is dead.
    pub fn let_go(&mut self, number: u64)
        requires { is_dead self.old number ≡ true }
        ensures rows { self.new.rows ≡ self.old.rows }
        ensures holdings { self.new.holdings ≡ self.old.holdings }
        ensures budget { self.new.budget ≡ self.old.budget }
        ensures gone { self.new.gone ≡ self.old.gone ++ number ∷ [] }
        ensures spare { self.new.spare ≡ self.old.spare }
        ensures room { self.new.room ≡ self.old.room }
    {
        let _ = self.rows.let_go(number);
        let _ = self.lost.let_go(number);
        let_key_go(&mut self.live, number);
        self.holders.let_go(number);
        self.kept = self.kept.saturating_sub(1);
    }
}
