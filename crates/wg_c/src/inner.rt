//! What lies behind a device: the desk, and what waits to be told.
ghost use Rattle.std.specs.Prelude.{◌≡◌, ◌+◌, ◌||◌, [], not, true, false, length, slice_get, Some, None, IfOk, IfErr, IfSome, IfNone, IsSomeAnd, OnOk, OnErr, option_map, option_and_then, is_none};
ghost use Rattle.wg_types.specs.Commands.{named as command_named};
ghost use Rattle.wg_types.specs.Requests.{named};
ghost use Rattle.wg_calls.specs.Calls.{taken_out};
ghost use Rattle.wg_calls.specs.Encoders.{is_begun};
ghost use Rattle.wg_desk.specs.Seats.{any_missing, handle_at};
ghost use Rattle.wg_desk.specs.Sent.{recorder_asked};
ghost use Rattle.wg_desk.specs.Desks.{encoder_on, lacks, FindsUnsetOn};
ghost use Rattle.wg_told.specs.Limits.{limit_at};
ghost use Rattle.wg_told.specs.Replies.{settlement_told};
ghost use Rattle.wg_told.specs.Items.{item_told, use_told, access_told, uses_of, accesses_of};
ghost use Rattle.wg_c.specs.Inners.{IsOpened, HasAsked, HasNoted, HasComeLate, HasFinished, IsHeld, NothingHasChanged, IsCause, HasToldNext, HasDrained, last_of, left_in};

use crate::left::ToldLeft;
use crate::waiting::Waiting;
use std::alloc::Global;
use std::marker::Model;
use wg_desk::{Desk, DeskError};
use wg_encoder::{Noted, Recorder};
use wg_told::{
    ToldAccess, ToldCounts, ToldItem, ToldReply, ToldSettlement, ToldUse, access_told, item_counts,
    item_told, limit_at, reply_told, settlement_told, tell_items, use_told,
};
use wg_types::commands::{CommandOf, On};
use wg_types::limits::Limits;
use wg_types::parts::{AccessKind, Cells, PartRun};
use wg_types::requests::RequestOf;
use wg_types::steps::Item;
use wg_types::usages::Usages;

/// The caller of each call, by its number in the history: callers in C have no numbers.
const CALLER: u32 = 0;

/// What a drain of many items has done.
pub enum Drained {
    /// As many items were told as there was room for, and at least one.
    Told(ToldCounts),
    /// There is no room for the next item, which takes so much.
    Wants(ToldCounts),
    /// All were told before.
    Ended,
}

/// A desk, with its limits, and the items and the settlements that wait to be told. Of the items those before `told`
/// were.
#[derive(Drop)]
pub struct Inner {
    desk: Desk,
    limits: Limits,
    items: Vec<Item>,
    told: usize,
    waiting: Waiting,
}

impl Model for Inner {
    ghost use Rattle.std.specs.Prelude.{◌≡◌};
    ghost use Rattle.wg_c.specs.Inners.{InnerValue, AreWaiting};

    ghost Value = { InnerValue };

    ghost view = { λ i. record { desk = i.desk; items = i.items.items; told = i.told; settled = i.waiting.left } };

    ghost invariant = { λ i. record {
      waiting : AreWaiting i.desk.setup i.desk.history i.items.items i.told;
      limits_are : i.limits ≡ i.desk.setup.limits;
    } };
}

/// An item, if there is one.
fn item_at(items: &[Item], told: usize) -> Option<&Item>
    ensures some { IfSome result (λ item. last_of items.now told ≡ Some item.now) }
    ensures none { IfNone result (last_of items.now told ≡ None) }
{
    if told == 0 {
        return None;
    }
    items.get(told - 1)
}

/// A use of a list, as it is told.
fn use_in(uses: &[(PartRun, Usages)], at: usize) -> Option<ToldUse>
    ensures { result ≡ option_map use_told (slice_get uses.now at) }
{
    let (part, set) = uses.get(at)?;
    Some(use_told(*part, *set))
}

/// An access of a list, as it is told.
fn access_in(accesses: &[(Cells, AccessKind)], at: usize) -> Option<ToldAccess>
    ensures { result ≡ option_map access_told (slice_get accesses.now at) }
{
    let (cells, kind) = accesses.get(at)?;
    Some(access_told(*cells, *kind))
}

impl Inner {
    /// One of a device with nothing on it. It takes no memory.
    pub fn open(alloc: Global, budget: u64, serial: u64, limits: &Limits) -> Inner
        ensures { IsOpened result budget serial limits.now }
    {
        Inner {
            desk: Desk::open(alloc, budget, serial, limits),
            limits: *limits,
            items: Vec::new(alloc),
            told: 0,
            waiting: Waiting::new(alloc),
        }
    }

    /// The limit that has a number, if there is one.
    pub fn limit(&self, name: u32) -> Option<u64>
        ensures { result ≡ limit_at self.now.desk.setup.limits name }
    {
        limit_at(&self.limits, name)
    }

    /// Makes a call, with the recorder of what it makes. What it adds to the trace and what it settles waits to be told.
    #[tactic(auto, using(crate::proofs::Inside::asked_by))]
    pub fn ask(
        &mut self,
        request: &RequestOf<u64>,
    ) -> Result<(ToldReply, Option<Recorder>), DeskError>
        ensures done { IfOk result (λ made. HasAsked self.old self.new request.now made.0) }
        ensures recorder { IfOk result (λ made. made.1 ≡ recorder_asked self.old.desk.setup self.old.desk.seats request.now) }
        ensures cause { IfErr result (λ error. IsCause error (any_missing self.old.desk.seats (named request.now)) false) }
        ensures unchanged { OnErr result (NothingHasChanged self.old self.new) }
    {
        if self.waiting.reserve().is_err() {
            return Err(DeskError::NoMemory);
        }
        let entry = self.desk.len();
        match self.desk.ask(CALLER, request, &mut self.items) {
            Ok((reply, recorder)) => {
                let told = reply_told(&reply, entry);
                self.waiting.push(reply.settled);
                Ok((told, recorder))
            }
            Err(error) => Err(error),
        }
    }

    /// Records a command on a recorder of the device, which is only read.
    pub fn record(
        &self,
        recorder: &mut Recorder,
        on: On,
        command: &CommandOf<u64>,
    ) -> Result<Noted, DeskError>
        ensures done { IfOk result (λ answer. HasNoted self.now recorder.old recorder.new on command.now answer) }
        ensures cause { IfErr result (λ error. IsCause error
            (lacks self.now.desk recorder.old || any_missing self.now.desk.seats (command_named command.now))
            (not (is_begun on recorder.old.passes))) }
        ensures unchanged { OnErr result (recorder.new ≡ recorder.old) }
    {
        self.desk.record(recorder, on, command)
    }

    /// Tells the device that a command came late on a recorder of it.
    #[tactic(auto, using(crate::proofs::Inside::came_late))]
    pub fn late(&mut self, recorder: &Recorder) -> Result<ToldReply, DeskError>
        ensures done { IfOk result (λ told. IsSomeAnd (encoder_on self.old.desk recorder.now) (λ encoder. HasComeLate self.old self.new encoder told)) }
        ensures cause { IfErr result (λ error. IsCause error (lacks self.old.desk recorder.now) false) }
        ensures unchanged { OnErr result (NothingHasChanged self.old self.new) }
    {
        if self.waiting.reserve().is_err() {
            return Err(DeskError::NoMemory);
        }
        let entry = self.desk.len();
        match self.desk.late(CALLER, recorder, &mut self.items) {
            Ok(reply) => {
                let told = reply_told(&reply, entry);
                self.waiting.push(reply.settled);
                Ok(told)
            }
            Err(error) => Err(error),
        }
    }

    /// Ends the encoder of a recorder of the device.
    #[tactic(auto, using(crate::proofs::Inside::finished_by))]
    pub fn finish(&mut self, recorder: &mut Recorder) -> Result<ToldReply, DeskError>
        ensures done { IfOk result (λ told. IsSomeAnd (encoder_on self.old.desk recorder.old) (λ encoder. HasFinished self.old self.new recorder.old encoder told)) }
        ensures taken { OnOk result (recorder.new ≡ taken_out recorder.old) }
        ensures cause { IfErr result (λ error. IsCause error (lacks self.old.desk recorder.old) false) }
        ensures unchanged { OnErr result (NothingHasChanged self.old self.new) }
        ensures held { OnErr result (IsHeld recorder.old recorder.new) }
    {
        if self.waiting.reserve().is_err() {
            return Err(DeskError::NoMemory);
        }
        let entry = self.desk.len();
        match self.desk.finish(CALLER, recorder, &mut self.items) {
            Ok(reply) => {
                let told = reply_told(&reply, entry);
                self.waiting.push(reply.settled);
                Ok(told)
            }
            Err(error) => Err(error),
        }
    }

    /// The first bytes of a buffer's range that are unset, as many as stand together.
    pub fn first_unset(
        &self,
        buffer: u64,
        from: u64,
        to: u64,
    ) -> Result<Option<(u64, u64)>, DeskError>
        ensures unset { IfOk result (λ found. FindsUnsetOn self.now.desk buffer from to found) }
        ensures found { OnOk result (is_none (handle_at self.now.desk.seats buffer) ≡ false) }
        ensures missing { OnErr result (is_none (handle_at self.now.desk.seats buffer) ≡ true) }
    {
        self.desk.first_unset(buffer, from, to)
    }

    /// Drops what earlier calls have given back, which no call does itself, since that may take long.
    pub fn drop_spent(&mut self)
        ensures { self.new ≡ self.old }
    {
        self.desk.drop_spent();
    }

    /// The next item. When all are told the list is emptied, and keeps its room.
    pub fn next_item(&mut self) -> Option<ToldItem>
        ensures item { result ≡ option_map item_told (slice_get self.old.items self.old.told) }
        ensures told { IfSome result (λ _. self.new ≡ record self.old { told = self.old.told + 1 }) }
        ensures ended { IfNone result ((self.old.told ≡ length self.old.items) × (self.new ≡ record self.old { items = []; told = 0 })) }
    {
        if let Some(item) = self.items.as_slice().get(self.told) {
            let told = item_told(item);
            self.told += 1;
            return Some(told);
        }
        self.items.clear();
        self.told = 0;
        None
    }

    /// The next items, as many as there is room for. When all are told the list is emptied, and keeps its room.
    #[tactic(auto, using(crate::proofs::Inside::none_left, crate::proofs::Inside::waits_on, crate::proofs::Inside::told_within, crate::proofs::Inside::told_by))]
    pub fn next_items(
        &mut self,
        items: &mut [ToldItem],
        uses: &mut [ToldUse],
        accesses: &mut [ToldAccess],
    ) -> Drained
        ensures { HasDrained self.old self.new
            (record { items = items.old; uses = uses.old; accesses = accesses.old })
            (record { items = items.new; uses = uses.new; accesses = accesses.new }) result }
    {
        let Some(item) = self.items.as_slice().get(self.told) else {
            self.items.clear();
            self.told = 0;
            return Drained::Ended;
        };
        let rest = &self.items.as_slice()[self.told..];
        let counts = tell_items(rest, items, uses, accesses);
        if counts.items == 0 {
            return Drained::Wants(item_counts(item));
        }
        self.told += counts.items as usize;
        Drained::Told(counts)
    }

    /// A use of the item that was told last.
    pub fn use_at(&self, at: usize) -> Option<ToldUse>
        ensures { result ≡ option_map use_told (option_and_then (λ item. slice_get (uses_of item) at) (last_of self.now.items self.now.told)) }
    {
        match item_at(self.items.as_slice(), self.told) {
            Some(Item::Step(step)) => use_in(step.uses.as_slice(), at),
            _ => None,
        }
    }

    /// An access of the item that was told last.
    pub fn access_at(&self, at: usize) -> Option<ToldAccess>
        ensures { result ≡ option_map access_told (option_and_then (λ item. slice_get (accesses_of item) at) (last_of self.now.items self.now.told)) }
    {
        match item_at(self.items.as_slice(), self.told) {
            Some(Item::Step(step)) => access_in(step.accesses.as_slice(), at),
            _ => None,
        }
    }

    /// The next settlement.
    pub fn next_settlement(&mut self) -> Option<ToldSettlement>
        ensures told { IfSome result (λ told. HasToldNext self.old self.new told) }
        ensures ended { IfNone result ((self.old.settled ≡ []) × (self.new ≡ self.old)) }
    {
        let settlement = self.waiting.next()?;
        Some(settlement_told(settlement))
    }

    /// How much is left to be told. The settlements are let go.
    pub fn left(&mut self) -> ToldLeft
        ensures { result ≡ left_in self.old }
    {
        ToldLeft {
            items: (self.items.len() - self.told) as u64,
            settlements: self.waiting.clear(),
        }
    }
}
