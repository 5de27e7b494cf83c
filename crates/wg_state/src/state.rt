//! A history with all that is kept beside it.
ghost use Rattle.std.specs.Prelude.{◌≡◌, true, ◌+◌, ◌-◌, ◌^◌, ◌<◌, ◌≤◌, ◌∷◌, ◌++◌, [], map, filter, nat_le, is_some, length, reverse, vec_len, vec_capacity, option_to_list, OnOk, IfOk, IfSome, Some, None, ◌||◌, ◌==◌, if◌then◌else◌, false, MatchOption};
ghost use Rattle.wg_fading.specs.Fading.{was_let_go};
ghost use Rattle.wg_orders.specs.Trace.{free};
ghost use Rattle.wg_history.specs.Operations.{issued, completed, last_use};
ghost use Rattle.wg_model.specs.ErrorScopes.{deliver, pop_how};
ghost use Rattle.wg_history.specs.Loss.{is_lost, error_scopes, awaiting, is_map_of, is_pending};
ghost use Rattle.wg_history.specs.Budget.{live_bytes, bytes_made};
ghost use Rattle.wg_history.specs.Objects.{is_made_valid, made_info};
ghost use Rattle.wg_history.specs.Rules.{has_finished, is_consumed, is_destroyed, is_dropped, may_name, is_busy, mapped_at};
ghost use Rattle.wg_history.specs.Answers.{Run, reply_to, settle_all, kept_how, ended_how, is_kept};
ghost use Rattle.wg_history.specs.Releases.{freed};
ghost use Rattle.wg_maps.specs.Mappings.{due_maps};
ghost use Rattle.wg_state.specs.Rows.{AreUsed, made_by, links_of};
ghost use Rattle.wg_life.specs.Lives.{live_count};
ghost use Rattle.wg_state.specs.Gone.{names_gone, uses_gone, is_here, IsDead, AreDead};
ghost use Rattle.wg_state.specs.States.{IsKept};
ghost use Rattle.wg_state.specs.Waits.{map_waits};
ghost use Rattle.wg_state.specs.Uses.{uses_of};
ghost use Rattle.wg_state.specs.Recordings.{any_spent, is_spent, most_spent, HandsOutSpent};
ghost use Rattle.wg_history.specs.Objects.{deeds_at};

use crate::book::Book;
use crate::mappings::{is_mapping, note_maps};
use crate::names::{self, links_of};
use crate::notes::{grow, note_entry};
use crate::queues::note_queue;
use crate::recordings::{Recordings, Spent, forget_spent, keep};
use crate::scopes::note_errors;
use crate::settlements;
use std::alloc::Global;
use std::marker::Model;
use wg_cbtrack::CbTrack;
use wg_errors::Errors;
use wg_history::NoMemory;
use wg_history::events::{Entry, Event, Setup};
use wg_life::{Life, Made};
use wg_maps::Maps;
use wg_queue::Queue;
use wg_types::handles::{Info, ObjRef};
use wg_types::mappings::{Mapping, PendingMap};
use wg_types::replies::{Caught, FaultKind, How, Reply, Settlements};
use wg_types::steps::{Item, Used};

/// What is kept beside a history.
#[derive(Drop)]
struct Kept {
    life: Life,
    queue: Queue,
    errors: Errors,
    maps: Maps,
}

/// Notes an entry that comes after a history in what is kept beside that, and adds its releases to a
/// trace. It makes the object of which this is known, if it makes one.
fn note(
    setup: Setup,
    book: &Book,
    entry: &Entry,
    info: &Option<Info>,
    made: Option<Made>,
    uses: &[Used],
    kept: &mut Kept,
    trace: &mut Vec<Item>,
)
    requires names { names_gone book.now.gone entry.now.event ≡ false }
    requires same_gone { kept.old.life.gone ≡ book.now.gone }
    requires here { uses_gone book.now.gone uses.now ≡ false }
    requires run { Run setup book.now.entries }
    requires answers { entry.now.reply ≡ reply_to setup (reverse book.now.entries) entry.now.event }
    requires used { AreUsed (reverse book.now.entries) entry.now.reply.answer entry.now.event uses.now }
    requires info { info.now ≡ made_info (reverse book.now.entries) entry.now.event }
    requires made { made ≡ made_by entry.now.event (is_made_valid entry.now.reply.answer) }
    requires links { links_of made < kept.old.life.room }
    requires kept { IsKept setup (reverse book.now.entries) kept.old.life kept.old.queue kept.old.errors kept.old.maps }
    requires small { length book.now.entries + 1 < 2 ^ 64 }
    requires place { 0 < kept.old.life.spare }
    requires queue_place { 0 < kept.old.queue.spare }
    requires errors_place { 0 < kept.old.errors.spare }
    requires maps_place { 0 < kept.old.maps.spare }
    requires room { vec_len trace.old + (live_count kept.old.life.rows + 1) ≤ vec_capacity trace.old }
    ensures kept { IsKept setup (entry.now ∷ reverse book.now.entries) kept.new.life kept.new.queue kept.new.errors kept.new.maps }
    ensures trace { trace.new.items ≡ trace.old.items ++ map free (freed setup (entry.now ∷ reverse book.now.entries)) }
    ensures gone { kept.new.life.gone ≡ kept.old.life.gone }
    ensures spare { kept.old.life.spare ≤ kept.new.life.spare + 1 }
    ensures queue_spare { kept.old.queue.spare ≤ kept.new.queue.spare + 1 }
    ensures errors_spare { kept.old.errors.spare ≤ kept.new.errors.spare + 1 }
    ensures maps_spare { kept.old.maps.spare ≤ kept.new.maps.spare + 1 }
{
    let effects = entry.event.effects();
    note_maps(
        setup,
        book,
        &kept.life,
        entry,
        &effects,
        info,
        &mut kept.maps,
    );
    grow(made, &mut kept.life);
    note_entry(setup, book, entry, uses, &mut kept.life);
    note_queue(book.len(), entry, &effects, &mut kept.queue);
    note_errors(entry, &effects, &mut kept.errors);
    kept.life.release(kept.queue.completed(), trace);
}

/// A device's history, with what it says kept beside it. Contracts see what the device was opened
/// with, the history, which is a run, for how many entries there is room, for how many holds of objects,
/// and how many resources are not released. The history is in the contracts alone.
#[derive(Drop)]
pub struct State {
    setup: Setup,
    book: Book,
    kept: Kept,
    recordings: Recordings,
    spare: usize,
    ghost run: { Run setup book.entries },
}

impl Model for State {
    ghost use Rattle.std.specs.Prelude.{◌≡◌, ◌≤◌, reverse};
    ghost use Rattle.wg_state.specs.States.{StateValue, IsKept};
    ghost use Rattle.wg_life.specs.Lives.{live_count};
    ghost use Rattle.wg_state.specs.Recordings.{AreLeft};

    ghost Value = { StateValue };

    ghost view = { λ s. record { setup = s.setup; history = s.book.entries; run = s.run; spare = s.spare; gone = s.book.gone; room = s.kept.life.room; live = live_count s.kept.life.rows } };

    ghost invariant = { λ s. record {
      device_is : s.book.device ≡ s.setup.serial;
      kept : IsKept s.setup (reverse s.book.entries) s.kept.life s.kept.queue s.kept.errors s.kept.maps;
      gone_is : s.kept.life.gone ≡ s.book.gone;
      book_fits : s.spare ≤ s.book.spare;
      life_fits : s.spare ≤ s.kept.life.spare;
      queue_fits : s.spare ≤ s.kept.queue.spare;
      errors_fit : s.spare ≤ s.kept.errors.spare;
      maps_fit : s.spare ≤ s.kept.maps.spare;
      recordings_are : AreLeft s.setup (reverse s.book.entries) s.recordings.kept;
      recordings_fit : s.spare ≤ s.recordings.spare;
    } };
}

impl State {
    /// A device of which nothing was asked yet.
    #[tactic(auto, using(crate::proofs::KeptLemmas::kept_none))]
    pub fn new(alloc: Global, setup: Setup) -> State
        ensures setup { result.setup ≡ setup }
        ensures history { result.history ≡ [] }
        ensures gone { result.gone ≡ [] }
    {
        State {
            setup,
            book: Book::new(alloc, setup.serial),
            kept: Kept {
                life: Life::new(alloc, setup.budget),
                queue: Queue::new(alloc),
                errors: Errors::new(alloc),
                maps: Maps::new(alloc),
            },
            recordings: Recordings::new(alloc),
            spare: 0,
        }
    }

    /// What the device was opened with.
    pub fn setup(&self) -> Setup
        ensures { result ≡ self.now.setup }
    {
        self.setup
    }

    /// How many entries there are.
    pub fn len(&self) -> u64
        ensures { result ≡ length self.now.history }
    {
        self.book.len()
    }

    /// The resources that the commands of command buffers use, of which each may still be submitted. Each command
    /// buffer has every resource once.
    #[tactic(auto, using(crate::proofs::Recorded::reads_uses))]
    pub fn uses_of(&self, alloc: Global, buffers: &[ObjRef]) -> Result<Vec<Used>, NoMemory>
        requires { any_spent self.now.setup (reverse self.now.history) buffers.now ≡ false }
        ensures { IfOk result (λ uses. uses.items ≡ uses_of (reverse self.now.history) buffers.now) }
    {
        self.recordings.uses_left(alloc, buffers)
    }

    /// The tracker of what the commands of a command buffer do, if that may still be submitted, or none
    /// where they do nothing.
    #[tactic(auto, using(crate::proofs::Recorded::reads_deeds))]
    pub fn track_at(&self, number: u64) -> Option<&CbTrack>
        requires { is_spent self.now.setup (reverse self.now.history) number ≡ false }
        ensures { MatchOption result (deeds_at (reverse self.now.history) number ≡ []) (λ track. track.now ≡ deeds_at (reverse self.now.history) number) }
    {
        self.recordings.track(number)
    }

    /// The entries, with the objects that they made.
    pub fn book(&self) -> &Book
        ensures entries { result.now.entries ≡ self.now.history }
        ensures gone { result.now.gone ≡ self.now.gone }
    {
        &self.book
    }

    /// How many operations were issued.
    #[tactic(auto, using(crate::proofs::KeptLemmas::issued_small))]
    pub fn issued(&self) -> u64
        ensures value { result ≡ issued (reverse self.now.history) }
        ensures small { result ≤ length self.now.history }
    {
        self.kept.queue.issued()
    }

    /// Up to which operation all are complete.
    pub fn completed(&self) -> u64
        ensures { result ≡ completed (reverse self.now.history) }
    {
        self.kept.queue.completed()
    }

    /// Whether the device is lost.
    pub fn is_lost(&self) -> bool
        ensures { result ≡ is_lost (reverse self.now.history) }
    {
        self.kept.errors.is_lost()
    }

    /// Where a fault of a kind goes, or nothing where the device is lost (WebGPU, "Error Scopes").
    pub fn catches(&self, kind: FaultKind) -> Option<Caught>
        ensures { result ≡ (if is_lost (reverse self.now.history) then None else Some (deliver (error_scopes (reverse self.now.history)) kind)) }
    {
        self.kept.errors.catches(kind)
    }

    /// How a pop of the innermost scope settles (WebGPU, "popErrorScope").
    pub fn top(&self) -> How
        ensures { result ≡ pop_how (is_lost (reverse self.now.history)) (error_scopes (reverse self.now.history)) }
    {
        self.kept.errors.top()
    }

    /// Whether a promise that all work is done settles at once (WebGPU, "onSubmittedWorkDone").
    pub fn is_idle(&self) -> bool
        ensures { result ≡ (is_lost (reverse self.now.history) || issued (reverse self.now.history) == completed (reverse self.now.history)) }
    {
        self.kept.queue.is_idle()
    }

    /// What settles once all operations up to this one are complete, in the order of the promises.
    pub fn kept(&self, alloc: Global, op: u64) -> Result<Settlements, NoMemory>
        ensures { IfOk result (λ settled. settled ≡ settle_all kept_how (filter (is_kept op) (awaiting (reverse self.now.history)))) }
    {
        settlements::kept(alloc, op, self.kept.queue.waits(), &self.kept.maps)
    }

    /// What the loss of the device settles, in the order of the promises.
    pub fn ended(&self, alloc: Global) -> Result<Settlements, NoMemory>
        ensures { IfOk result (λ settled. settled ≡ settle_all ended_how (awaiting (reverse self.now.history))) }
    {
        settlements::ended(alloc, self.kept.queue.waits(), &self.kept.maps)
    }

    /// What the end of a buffer's mapping settles.
    pub fn aborted(&self, alloc: Global, buffer: u64) -> Result<Settlements, NoMemory>
        ensures { IfOk result (λ settled. settled ≡ settle_all ended_how (filter (is_map_of buffer) (awaiting (reverse self.now.history)))) }
    {
        settlements::aborted(alloc, buffer, &self.kept.maps)
    }

    /// The maps that settle once all operations up to this one are complete, in the order of their promises.
    pub fn kept_maps(&self, op: u64) -> Result<Vec<PendingMap>, NoMemory>
        ensures { IfOk result (λ list. list.items ≡ due_maps op (map_waits (awaiting (reverse self.now.history)))) }
    {
        self.kept.maps.due_waits(op)
    }

    /// How the buffer is mapped, if it is.
    pub fn mapping(&self, buffer: u64) -> Option<Mapping>
        ensures { result ≡ mapped_at self.now.setup (reverse self.now.history) buffer }
    {
        self.kept.maps.mapping(buffer)
    }

    /// Whether the buffer is mapped, or a map of it is pending.
    fn is_mapping(&self, buffer: u64) -> bool
        ensures { result ≡ (is_some (mapped_at self.now.setup (reverse self.now.history) buffer) || is_pending (reverse self.now.history) buffer) }
    {
        is_mapping(self.kept.maps.state(buffer))
    }

    /// Whether the buffer is destroyed, or mapped, or a map of it is pending.
    pub fn is_busy(&self, buffer: u64) -> bool
        requires { was_let_go self.now.gone buffer ≡ false }
        ensures { result ≡ is_busy self.now.setup (reverse self.now.history) buffer }
    {
        self.is_destroyed(buffer) || self.is_mapping(buffer)
    }

    /// Whether the object is destroyed.
    pub fn is_destroyed(&self, number: u64) -> bool
        requires { was_let_go self.now.gone number ≡ false }
        ensures { result ≡ is_destroyed self.now.setup (reverse self.now.history) number }
    {
        self.kept.life.row(number).destroyed
    }

    /// Whether the object is dropped, be it let go.
    pub fn is_dropped(&self, number: u64) -> bool
        ensures { result ≡ is_dropped self.now.setup (reverse self.now.history) number }
    {
        self.kept.life.is_dropped(number)
    }

    /// Whether commands of the encoder may name the object: it was not dropped before that was made.
    pub fn may_name(&self, encoder: u64, number: u64) -> bool
        requires { was_let_go self.now.gone number ≡ false }
        ensures { result ≡ may_name self.now.setup (reverse self.now.history) encoder number }
    {
        match self.kept.life.mark(number).dropped {
            Some(made) => encoder < made,
            None => true,
        }
    }

    /// Whether the budget has so many bytes more.
    pub fn fits(&self, bytes: u64) -> bool
        ensures { result ≡ nat_le (live_bytes self.now.setup (reverse self.now.history) + bytes) self.now.setup.budget }
    {
        self.kept.life.fits(bytes)
    }

    /// Whether the encoder has ended.
    pub fn has_finished(&self, number: u64) -> bool
        requires { was_let_go self.now.gone number ≡ false }
        ensures { result ≡ has_finished self.now.setup (reverse self.now.history) number }
    {
        self.kept.life.mark(number).ended
    }

    /// Whether the command buffer was consumed.
    pub fn is_consumed(&self, number: u64) -> bool
        requires { was_let_go self.now.gone number ≡ false }
        ensures { result ≡ is_consumed self.now.setup (reverse self.now.history) number }
    {
        self.kept.life.mark(number).consumed
    }

    /// The last operation that uses the object, or 0.
    pub fn last_use(&self, number: u64) -> u64
        requires { was_let_go self.now.gone number ≡ false }
        ensures { result ≡ last_use (reverse self.now.history) number }
    {
        self.kept.life.row(number).last
    }

    /// What is known of the object that an event makes. It takes memory for the lists of what a pipeline
    /// layout or a bind group is made of.
    pub fn info_made(&self, alloc: Global, event: &Event) -> Result<Option<Info>, NoMemory>
        requires { names_gone self.now.gone event.now ≡ false }
        ensures { IfOk result (λ made. made ≡ made_info (reverse self.now.history) event.now) }
    {
        self.book.info_made(alloc, event)
    }

    /// The object that an event makes, of which this is known, if it makes one. That of a valid one has its
    /// memory, of which the bytes fit into 64 bits.
    pub fn made_by(
        &self,
        alloc: Global,
        event: &Event,
        info: &Option<Info>,
        valid: bool,
    ) -> Result<Option<Made>, NoMemory>
        requires info { info.now ≡ made_info (reverse self.now.history) event.now }
        requires bytes { valid ≡ true → bytes_made event.now < 2 ^ 64 }
        ensures { IfOk result (λ made. made ≡ made_by event.now valid) }
    {
        names::made_by(alloc, event, info, valid)
    }

    /// How many resources are not released.
    pub fn live(&self) -> u64
        ensures { result ≡ self.now.live }
    {
        self.kept.life.live()
    }

    /// Makes room for one entry more, which makes this object, if it makes one.
    #[tactic(auto, using(crate::proofs::Recorded::left_as))]
    pub fn reserve(&mut self, made: &Option<Made>) -> Result<(), NoMemory>
        ensures setup { self.new.setup ≡ self.old.setup }
        ensures history { self.new.history ≡ self.old.history }
        ensures live { self.new.live ≡ self.old.live }
        ensures gone { self.new.gone ≡ self.old.gone }
        ensures room { OnOk result (0 < self.new.spare) }
        ensures links { OnOk result (links_of made.now < self.new.room) }
        ensures small { OnOk result (length self.new.history + 1 < 2 ^ 64) }
    {
        self.kept.life.reserve(links_of(made)?)?;
        self.kept.queue.reserve(1)?;
        self.kept.errors.reserve(1)?;
        self.kept.maps.reserve(1)?;
        self.book.reserve()?;
        self.recordings.reserve()?;
        self.spare = 1;
        Ok(())
    }

    /// Adds an entry, which makes this object, of which this is known, if it makes one, and of which the
    /// operation uses these, and its releases to a trace, in room that there is for all that is live and
    /// one more, and gives its reply. The recordings that it spends are handed out, in room that there is.
    #[tactic(auto, using(crate::proofs::Recorded::left_next, crate::proofs::LifeLemmas::drops_are, crate::proofs::Handed::handed_spent))]
    pub fn add(
        &mut self,
        entry: Entry,
        info: Option<Info>,
        made: Option<Made>,
        uses: &[Used],
        trace: &mut Vec<Item>,
        spent: &mut Spent,
    ) -> Reply
        requires names { names_gone self.old.gone entry.event ≡ false }
        requires here { uses_gone self.old.gone uses.now ≡ false }
        requires answers { entry.reply ≡ reply_to self.old.setup (reverse self.old.history) entry.event }
        requires used { AreUsed (reverse self.old.history) entry.reply.answer entry.event uses.now }
        requires info { info ≡ made_info (reverse self.old.history) entry.event }
        requires made { made ≡ made_by entry.event (is_made_valid entry.reply.answer) }
        requires place { 0 < self.old.spare }
        requires links { links_of made < self.old.room }
        requires small { length self.old.history + 1 < 2 ^ 64 }
        requires room { vec_len trace.old + (self.old.live + 1) ≤ vec_capacity trace.old }
        requires spent { most_spent entry.event ≤ spent.old.room }
        ensures setup { self.new.setup ≡ self.old.setup }
        ensures history { self.new.history ≡ self.old.history ++ entry ∷ [] }
        ensures gone { self.new.gone ≡ self.old.gone }
        ensures reply { result ≡ entry.reply }
        ensures trace { trace.new.items ≡ trace.old.items ++ map free (freed self.old.setup (entry ∷ reverse self.old.history)) }
        ensures spent { HandsOutSpent self.old.setup (entry ∷ reverse self.old.history) spent.old.handed spent.new.handed }
    {
        forget_spent(
            self.setup,
            &self.book,
            &self.kept.life,
            &entry.event,
            &mut self.recordings,
            spent,
        );
        note(
            self.setup,
            &self.book,
            &entry,
            &info,
            made,
            uses,
            &mut self.kept,
            trace,
        );
        let number = self.book.count();
        self.book.add(&entry, info);
        let Entry { event, reply, .. } = entry;
        keep(number, event, &mut self.recordings);
        self.spare -= 1;
        reply
    }

    /// Whether an object was made and not let go.
    pub fn is_kept(&self, number: u64) -> bool
        ensures { result ≡ is_here self.now.gone (reverse self.now.history) number }
    {
        self.book.is_kept(number)
    }

    /// What was let go is dead.
    pub fn dead_holds(&self)
        ensures { AreDead self.now.setup (reverse self.now.history) self.now.gone }
    {
        self.kept.life.dead_holds();
    }

    /// How many objects were noted as maybe dead.
    pub fn hints(&self) -> usize {
        self.kept.life.hints()
    }

    /// Takes one object of those that were noted as maybe dead, and lets it go if it is. It gives the number
    /// of what it let go. What was known of that is handed out.
    pub fn let_one_go(&mut self, spent: &mut Spent) -> Option<u64>
        ensures setup { self.new.setup ≡ self.old.setup }
        ensures history { self.new.history ≡ self.old.history }
        ensures live { self.new.live ≡ self.old.live }
        ensures gone { self.new.gone ≡ self.old.gone ++ option_to_list result }
        ensures here { IfSome result (λ number. was_let_go self.old.gone number ≡ false) }
        ensures dead { IfSome result (λ number. IsDead self.old.setup (reverse self.old.history) number) }
        ensures handed { spent.new.handed ≡ spent.old.handed }
        ensures room { spent.new.room ≡ spent.old.room }
    {
        let Some(number) = self.kept.life.next_hint() else {
            return None;
        };
        if !self.kept.life.is_dead(number) {
            return None;
        }
        self.kept.life.let_go(number);
        let made = self.book.let_go(number);
        spent.add_known(made);
        Some(number)
    }
}
