//! The desk: its calls.
ghost use Rattle.std.specs.Prelude.{◌≡◌, ◌++◌, ◌<◌, [], ◌||◌, not, true, false, All, length, reverse, Some, IfOk, IfErr, IfSome, IsSomeAnd, OnOk, OnErr, is_none, option_to_list};
ghost use Rattle.wg_desk.specs.declared.desk.DeskError.TheVariants.{NoObject};
ghost use Rattle.wg_types.specs.Requests.{named};
ghost use Rattle.wg_types.specs.Commands.{named as command_named, map_refs as map_command};
ghost use Rattle.wg_encoder.specs.Recorders.{noted, is_late, recorded, has_taken, most_takes};
ghost use Rattle.wg_history.specs.declared.events.Event.TheVariants.{Late};
ghost use Rattle.wg_history.specs.Answers.{Run};
ghost use Rattle.wg_history.specs.Rules.{is_dropped, is_genuine};
ghost use Rattle.wg_state.specs.Gone.{named_by};
ghost use Rattle.wg_calls.specs.Calls.{event_asked, info_asked, finish_event, finished_info, finish_of, known_of_finish, taken_out};
ghost use Rattle.wg_calls.specs.Encoders.{is_begun};
ghost use Rattle.wg_desk.specs.Seats.{handle_at, found_at, any_missing, seat_made, AreSeated};
ghost use Rattle.wg_desk.specs.Sent.{event_sent, left_after, seats_after, recorder_made, recorder_asked};
ghost use Rattle.wg_desk.specs.Desks.{any_dropped, names_dropped, encoder_on, lacks, MakesGenuine, HasSent, HandsOutGrowth, FindsUnsetOn, IsNewRecorder, IsUnchanged, IsDue, IsNumber};

use crate::asked::{command_over, dropped_number, is_missing_in, is_missing_on, request_over};
use crate::endings::recording_in;
use crate::making::{keep, recorder_coming, seat_from};
use crate::seats::Seats;
use std::alloc::Global;
use std::marker::Model;
use wg_calls::{event_asked, finish_event, finished_info, info_asked, is_begun};
use wg_core::{Event, FadingCore, Refused, Spent};
use wg_encoder::{Noted, Recorder, Recording};
use wg_entry::NoMemory;
use wg_types::commands::{CommandOf, On};
use wg_types::handles::{Handle, Info, ObjRef};
use wg_types::limits::Limits;
use wg_types::replies::Reply;
use wg_types::requests::RequestOf;
use wg_types::steps::Item;

/// Why a call was not made. Nothing has changed.
#[derive(Clone, Copy, PartialEq, Eq, Debug)]
pub enum DeskError {
    /// There was no memory.
    NoMemory,
    /// A number was never given, or its object was dropped, or an encoder is of another device.
    NoObject,
    /// A pass was never begun on its encoder.
    NoPass,
}

impl From<NoMemory> for DeskError {
    ghost use Rattle.std.specs.Prelude.{◌≡◌};
    ghost use Rattle.wg_desk.specs.declared.desk.DeskError.TheVariants.{NoMemory};

    ghost from_gives = { λ _ error. error ≡ NoMemory };

    fn from(_error: NoMemory) -> DeskError {
        DeskError::NoMemory
    }
}

/// A device with the handles of its objects by number. Numbers count up from 0, and none is given twice. The
/// recorders of its encoders are with their callers, who record while the desk is only read. What calls give back of
/// recordings and of objects that nobody can reach any more waits until it is dropped. Contracts see what the device
/// was opened with, its history, which is a run, and what is kept at each number.
#[derive(Drop)]
pub struct Desk {
    core: FadingCore,
    alloc: Global,
    serial: u64,
    limits: Limits,
    seats: Seats,
    spent: Spent,
}

impl Model for Desk {
    ghost use Rattle.std.specs.Prelude.{◌≡◌};
    ghost use Rattle.wg_desk.specs.Seats.{AreSeated};
    ghost use Rattle.wg_desk.specs.Desks.{DeskValue};

    ghost Value = { DeskValue };

    ghost view = { λ d. record { setup = d.core.setup; history = d.core.history; run = d.core.run; seats = d.seats.items } };

    ghost invariant = { λ d. record {
      serial_is : d.serial ≡ d.core.setup.serial;
      limits_is : d.limits ≡ d.core.setup.limits;
      seated : AreSeated d.core.setup d.core.history d.seats.items;
    } };
}

impl Desk {
    /// A device of this serial and these limits with nothing on it. Its resources may have `budget` bytes.
    /// The caller gives each device another serial. It takes no memory.
    pub fn open(alloc: Global, budget: u64, serial: u64, limits: &Limits) -> Desk
        ensures setup { result.setup ≡ record { serial = serial; budget = budget; limits = limits.now } }
        ensures history { result.history ≡ [] }
        ensures seats { result.seats ≡ [] }
    {
        Desk {
            core: FadingCore::new(alloc, budget, serial, limits),
            alloc,
            serial,
            limits: *limits,
            seats: Seats::new(alloc),
            spent: Spent::new(alloc),
        }
    }

    /// Drops what calls have given back: recordings that no submit is accepted of any more, and what was known of
    /// objects that nobody can reach any more. That takes as long as these have commands and lists, so that no call
    /// does it. Where nothing waits it takes no time.
    pub fn drop_spent(&mut self)
        ensures { self.new ≡ self.old }
    {
        self.spent.clear();
    }

    /// What holds of a desk at all times: its history is a run, there is a place for each object that was
    /// made, and each handle is genuine and of the object of its number, which was not dropped.
    pub fn holds(&self)
        ensures run { Run self.now.setup self.now.history }
        ensures seated { AreSeated self.now.setup self.now.history self.now.seats }
    {
        let _ = &self.seats;
    }

    /// How many entries there are, which is the number of the next, and so of the promise that it makes.
    pub fn len(&self) -> u64
        ensures { result ≡ length self.now.history }
    {
        self.core.len()
    }

    /// The first bytes of a buffer's range, from `lo` up to but not including `hi`, that are unset in the trace, as
    /// many as stand together; none where all are set. It takes no memory. Of what is no buffer, or past its end, all
    /// is unset. A number without an object is refused.
    pub fn first_unset(
        &self,
        buffer: u64,
        lo: u64,
        hi: u64,
    ) -> Result<Option<(u64, u64)>, DeskError>
        ensures unset { IfOk result (λ found. FindsUnsetOn self.now buffer lo hi found) }
        ensures found { OnOk result (is_none (handle_at self.now.seats buffer) ≡ false) }
        ensures due { IfErr result (λ error. (error ≡ NoObject) × (is_none (handle_at self.now.seats buffer) ≡ true)) }
    {
        if self.seats.handle_at(buffer).is_none() {
            return Err(DeskError::NoObject);
        }
        self.core.dead_holds();
        Ok(self.core.first_unset(buffer, lo, hi))
    }

    /// Sends an event, and seats what it makes, of which so much is known. The seat of what it drops is emptied.
    /// What it gives back waits until it is dropped.
    fn send(
        &mut self,
        who: u32,
        event: Event,
        info: Option<Info>,
        items: &mut Vec<Item>,
    ) -> Result<Reply, Refused<Event>>
        requires makes { MakesGenuine self.old.setup self.old.history event info }
        requires undropped { any_dropped self.old.setup (reverse self.old.history) (named_by event) ≡ false }
        ensures setup { self.new.setup ≡ self.old.setup }
        ensures done { IfOk result (λ reply. HasSent self.old self.new who event reply) }
        ensures items { OnOk result (HandsOutGrowth self.old self.new items.old.items items.new.items) }
        ensures seats { IfOk result (λ reply. self.new.seats ≡ left_after event (self.old.seats ++ option_to_list (seat_made self.old.setup info reply.answer))) }
        ensures back { IfErr result (λ refused. refused.call ≡ event) }
        ensures unchanged { OnErr result (IsUnchanged self.old self.new) }
        ensures no_items { OnErr result (items.new.items ≡ items.old.items) }
    {
        if self.seats.reserve().is_err() {
            return Err(Refused { call: event });
        }
        let Ok(kept) = keep(self.alloc, info) else {
            return Err(Refused { call: event });
        };
        let dropped = dropped_number(&event);
        self.core.dead_holds();
        let reply = self.core.step(who, event, items, &mut self.spent)?;
        let made = seat_from(self.serial, kept, reply.answer);
        self.seats.add(made);
        self.seats.empty(dropped);
        Ok(reply)
    }

    /// The recorder of what a call is about to make, of which so much is known, if that is an encoder.
    fn recorder_of(&self, info: &Option<Info>) -> Result<Option<Recorder>, NoMemory>
        ensures { IfOk result (λ recorder. recorder ≡ recorder_made self.now.setup (length self.now.seats) info.now) }
    {
        let reference = ObjRef {
            device: self.serial,
            number: self.seats.len(),
        };
        recorder_coming(self.alloc, reference, info, &self.limits)
    }

    /// Sends the event that a call over handles is. All that the recorder of what it makes needs is taken before.
    fn call(
        &mut self,
        who: u32,
        request: &RequestOf<Handle>,
        items: &mut Vec<Item>,
    ) -> Result<(Reply, Option<Recorder>), NoMemory>
        requires genuine { All (λ used. is_genuine self.old.setup (reverse self.old.history) used.0 ≡ true) (named request.now) }
        requires undropped { names_dropped self.old.setup (reverse self.old.history) (named request.now) ≡ false }
        ensures setup { self.new.setup ≡ self.old.setup }
        ensures done { IfOk result (λ made. HasSent self.old self.new who (event_asked request.now) made.0) }
        ensures items { OnOk result (HandsOutGrowth self.old self.new items.old.items items.new.items) }
        ensures seats { IfOk result (λ made. self.new.seats ≡ left_after (event_asked request.now) (self.old.seats ++ option_to_list (seat_made self.old.setup (info_asked request.now) made.0.answer))) }
        ensures recorder { IfOk result (λ made. made.1 ≡ recorder_made self.old.setup (length self.old.seats) (info_asked request.now)) }
        ensures unchanged { OnErr result (IsUnchanged self.old self.new) }
        ensures no_items { OnErr result (items.new.items ≡ items.old.items) }
    {
        let info = info_asked(self.alloc, request)?;
        let recorder = self.recorder_of(&info)?;
        let event = event_asked(self.alloc, request)?;
        match self.send(who, event, info, items) {
            Ok(reply) => Ok((reply, recorder)),
            Err(_) => Err(NoMemory),
        }
    }

    /// The same of a call that is handed over, and dropped here, so that no caller drops one at its ways out.
    fn call_of(
        &mut self,
        who: u32,
        request: RequestOf<Handle>,
        items: &mut Vec<Item>,
    ) -> Result<(Reply, Option<Recorder>), NoMemory>
        requires genuine { All (λ used. is_genuine self.old.setup (reverse self.old.history) used.0 ≡ true) (named request) }
        requires undropped { names_dropped self.old.setup (reverse self.old.history) (named request) ≡ false }
        ensures setup { self.new.setup ≡ self.old.setup }
        ensures done { IfOk result (λ made. HasSent self.old self.new who (event_asked request) made.0) }
        ensures items { OnOk result (HandsOutGrowth self.old self.new items.old.items items.new.items) }
        ensures seats { IfOk result (λ made. self.new.seats ≡ left_after (event_asked request) (self.old.seats ++ option_to_list (seat_made self.old.setup (info_asked request) made.0.answer))) }
        ensures recorder { IfOk result (λ made. made.1 ≡ recorder_made self.old.setup (length self.old.seats) (info_asked request)) }
        ensures unchanged { OnErr result (IsUnchanged self.old self.new) }
        ensures no_items { OnErr result (items.new.items ≡ items.old.items) }
    {
        self.call(who, &request, items)
    }

    /// Sends the event that a call over numbers is.
    fn call_over(
        &mut self,
        who: u32,
        request: &RequestOf<u64>,
        items: &mut Vec<Item>,
    ) -> Result<(Reply, Option<Recorder>), NoMemory>
        requires { any_missing self.old.seats (named request.now) ≡ false }
        ensures setup { self.new.setup ≡ self.old.setup }
        ensures done { IfOk result (λ made. HasSent self.old self.new who (event_sent self.old.seats request.now) made.0) }
        ensures items { OnOk result (HandsOutGrowth self.old self.new items.old.items items.new.items) }
        ensures seats { IfOk result (λ made. self.new.seats ≡ seats_after self.old.setup self.old.seats request.now made.0.answer) }
        ensures recorder { IfOk result (λ made. made.1 ≡ recorder_asked self.old.setup self.old.seats request.now) }
        ensures unchanged { OnErr result (IsUnchanged self.old self.new) }
        ensures no_items { OnErr result (items.new.items ≡ items.old.items) }
    {
        let asked = request_over(self.alloc, &self.seats, request)?;
        let made = self.call_of(who, asked, items)?;
        Ok(made)
    }

    /// Makes a call of the device, whose objects go by number, but for those that record: the event is that of
    /// the call over the handles at its numbers. A finish or a finishBundle that comes here hands over no commands:
    /// `finish` is for those of a recorder. What is made has the number that the reply says, and comes with its
    /// recorder where it is an encoder. What is dropped has no number from then on.
    pub fn ask(
        &mut self,
        who: u32,
        request: &RequestOf<u64>,
        items: &mut Vec<Item>,
    ) -> Result<(Reply, Option<Recorder>), DeskError>
        ensures setup { self.new.setup ≡ self.old.setup }
        ensures done { IfOk result (λ made. HasSent self.old self.new who (event_sent self.old.seats request.now) made.0) }
        ensures number { IfOk result (λ made. IsNumber made.0.answer (length self.old.seats)) }
        ensures items { OnOk result (HandsOutGrowth self.old self.new items.old.items items.new.items) }
        ensures seats { IfOk result (λ made. self.new.seats ≡ seats_after self.old.setup self.old.seats request.now made.0.answer) }
        ensures recorder { IfOk result (λ made. made.1 ≡ recorder_asked self.old.setup self.old.seats request.now) }
        ensures fresh { IfOk result (λ made. IfSome made.1 (λ recorder. IsNewRecorder self.old.setup (length self.old.seats) recorder)) }
        ensures found { OnOk result (any_missing self.old.seats (named request.now) ≡ false) }
        ensures due { IfErr result (λ error. IsDue error (any_missing self.old.seats (named request.now)) false) }
        ensures unchanged { OnErr result (IsUnchanged self.old self.new) }
        ensures no_items { OnErr result (items.new.items ≡ items.old.items) }
    {
        if is_missing_in(&self.seats, request) {
            return Err(DeskError::NoObject);
        }
        Ok(self.call_over(who, request, items)?)
    }

    /// The encoder of a recorder, if it has a handle here. It was not dropped.
    fn encoder_on(&self, recorder: &Recorder) -> Option<ObjRef>
        ensures encoder { result ≡ encoder_on self.now recorder.now }
        ensures undropped { IfSome result (λ encoder. is_dropped self.now.setup (reverse self.now.history) encoder.number ≡ false) }
    {
        let encoder = recorder.encoder()?;
        if encoder.device != self.serial || self.seats.handle_at(encoder.number).is_none() {
            return None;
        }
        Some(encoder)
    }

    /// Records a command on a recorder of the desk, or on a pass of it: the command is kept, or it came late, after
    /// the end of the encoder or of the pass, of which `late` tells the device. The desk is only read, so that
    /// many may record at once, each on a recorder of its own. Where the encoder was dropped, or is of another
    /// device, there is no such object.
    #[tactic(auto, using(wg_calls::proofs::Begun::not_beyond))]
    pub fn record(
        &self,
        recorder: &mut Recorder,
        on: On,
        command: &CommandOf<u64>,
    ) -> Result<Noted, DeskError>
        ensures noted { IfOk result (λ answer. answer ≡ noted (is_late recorder.old on)) }
        ensures after { OnOk result (recorder.new ≡ recorded recorder.old on (map_command (found_at self.now.seats) command.now)) }
        ensures found { OnOk result ((lacks self.now recorder.old || any_missing self.now.seats (command_named command.now)) ≡ false) }
        ensures begun { OnOk result (is_begun on recorder.old.passes ≡ true) }
        ensures due { IfErr result (λ error. IsDue error (lacks self.now recorder.old || any_missing self.now.seats (command_named command.now)) (not (is_begun on recorder.old.passes))) }
        ensures unchanged { OnErr result (recorder.new ≡ recorder.old) }
    {
        if self.encoder_on(recorder).is_none() || is_missing_on(&self.seats, command) {
            return Err(DeskError::NoObject);
        }
        if !is_begun(on, recorder.passes()) {
            return Err(DeskError::NoPass);
        }
        let command = command_over(self.alloc, &self.seats, command)?;
        Ok(recorder.record(on, command)?)
    }

    /// Tells the device that a command came late on a recorder of it.
    pub fn late(
        &mut self,
        who: u32,
        recorder: &Recorder,
        items: &mut Vec<Item>,
    ) -> Result<Reply, DeskError>
        ensures setup { self.new.setup ≡ self.old.setup }
        ensures done { IfOk result (λ reply. IsSomeAnd (encoder_on self.old recorder.now) (λ encoder. HasSent self.old self.new who (Late encoder) reply)) }
        ensures items { OnOk result (HandsOutGrowth self.old self.new items.old.items items.new.items) }
        ensures seats { self.new.seats ≡ self.old.seats }
        ensures due { IfErr result (λ error. IsDue error (lacks self.old recorder.now) false) }
        ensures unchanged { OnErr result (IsUnchanged self.old self.new) }
        ensures no_items { OnErr result (items.new.items ≡ items.old.items) }
    {
        let Some(encoder) = self.encoder_on(recorder) else {
            return Err(DeskError::NoObject);
        };
        match self.send(who, Event::Late { encoder }, None, items) {
            Ok(reply) => Ok(reply),
            Err(_) => Err(DeskError::NoMemory),
        }
    }

    /// Sends the end of an encoder with what its recorder has kept, which comes back where there is no
    /// memory.
    fn hand_over(
        &mut self,
        who: u32,
        encoder: ObjRef,
        recording: Recording,
        items: &mut Vec<Item>,
    ) -> Result<Reply, Recording>
        requires { is_dropped self.old.setup (reverse self.old.history) encoder.number ≡ false }
        ensures setup { self.new.setup ≡ self.old.setup }
        ensures done { IfOk result (λ reply. HasSent self.old self.new who (finish_event recording.targets encoder recording) reply) }
        ensures items { OnOk result (HandsOutGrowth self.old self.new items.old.items items.new.items) }
        ensures seats { IfOk result (λ reply. self.new.seats ≡ self.old.seats ++ option_to_list (seat_made self.old.setup (Some (finished_info recording.targets recording)) reply.answer)) }
        ensures number { IfOk result (λ reply. IsNumber reply.answer (length self.old.seats)) }
        ensures back { IfErr result (λ back. back ≡ recording) }
        ensures unchanged { OnErr result (IsUnchanged self.old self.new) }
        ensures no_items { OnErr result (items.new.items ≡ items.old.items) }
    {
        let Ok(info) = finished_info(self.alloc, &recording) else {
            return Err(recording);
        };
        match self.send(who, finish_event(encoder, recording), Some(info), items) {
            Ok(reply) => Ok(reply),
            Err(refused) => Err(recording_in(refused.call)),
        }
    }

    /// Ends the encoder of a recorder (WebGPU, "finish" of an encoder or of a bundle encoder): what it has kept
    /// moves into the event. A recorder that was ended before hands over nothing, and the device answers. Without
    /// memory it is as before, but for how often it was taken where that is at the end of its count. Where the
    /// encoder was dropped, or is of another device, there is no such object.
    pub fn finish(
        &mut self,
        who: u32,
        recorder: &mut Recorder,
        items: &mut Vec<Item>,
    ) -> Result<Reply, DeskError>
        ensures setup { self.new.setup ≡ self.old.setup }
        ensures done { IfOk result (λ reply. IsSomeAnd (encoder_on self.old recorder.old) (λ encoder. HasSent self.old self.new who (finish_of encoder recorder.old) reply)) }
        ensures number { IfOk result (λ reply. IsNumber reply.answer (length self.old.seats)) }
        ensures items { OnOk result (HandsOutGrowth self.old self.new items.old.items items.new.items) }
        ensures seats { IfOk result (λ reply. self.new.seats ≡ self.old.seats ++ option_to_list (seat_made self.old.setup (Some (known_of_finish recorder.old)) reply.answer)) }
        ensures taken { OnOk result (recorder.new ≡ taken_out recorder.old) }
        ensures due { IfErr result (λ error. IsDue error (lacks self.old recorder.old) false) }
        ensures unchanged { OnErr result (IsUnchanged self.old self.new) }
        ensures as_before { OnErr result (record recorder.new { takes = recorder.old.takes } ≡ recorder.old) }
        ensures ended { OnErr result (has_taken recorder.new ≡ has_taken recorder.old) }
        ensures back { OnErr result (recorder.old.takes < most_takes → recorder.new ≡ recorder.old) }
        ensures no_items { OnErr result (items.new.items ≡ items.old.items) }
    {
        let Some(encoder) = self.encoder_on(recorder) else {
            return Err(DeskError::NoObject);
        };
        let recording = recorder.take();
        match self.hand_over(who, encoder, recording, items) {
            Ok(reply) => Ok(reply),
            Err(recording) => {
                recorder.put_back(recording);
                Err(DeskError::NoMemory)
            }
        }
    }
}
