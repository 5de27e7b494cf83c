//! The device and its passes.
ghost use Rattle.std.specs.Prelude.{◌≡◌, ◌<◌, ◌≤◌, ◌⊎◌, [], true, vec_len, Some, None, IfOk, IfErr, IfSome, OnErr, option_and_then};
ghost use Rattle.std.specs.Option.{is_some, option_map};
ghost use Rattle.std.specs.Arc.{arc_value};
ghost use mathlib.Core.List.{IsPrefix};
ghost use Rattle.wg_types.specs.Requests.{named, kind_made};
ghost use Rattle.wg_encoder.specs.Recorders.{most_takes};
ghost use Rattle.wg_turn.specs.Passes.{IsPassOf, AreFresh, AreSound, AreInOrder, FrontsAre, IsSamePass, IsWhole, callers_of, opened_with};
ghost use Rattle.wg_turn.specs.Closings.{entries_of, passes_of, state_of};
ghost use Rattle.wg_calls.specs.Calls.{event_asked, info_asked, handle_of, handle_made, finish_of, finished_info, known_of_finish, taken_out};
ghost use Rattle.wg_device.specs.Fronts.{front_in, history_of, setup_of, CanCall, HasCalled, HasNotMade, IsAct, IsSoundIn};
ghost use Rattle.wg_device.specs.Handles.{IsHandleOf, IsGenuineIn, AreGenuineIn};
ghost use Rattle.wg_device.specs.Takes.{HasTaken, given_back, IsAsBefore};

use std::alloc::Global;
use std::sync::{Arc, Wait};
use wg_calls::{event_asked, finish_event, finished_info, handle_of, info_asked};
use wg_core::{Event, LoggedCore};
use wg_encoder::{Recorder, Recording};
use wg_entry::NoMemory;
use wg_turn::{Closed, Pass, TurnLock};
use wg_types::handles::{Handle, Info, ObjRef};
use wg_types::limits::Limits;
use wg_types::replies::{Answer, Reply};
use wg_types::requests::RequestOf;

/// The right to call a device under one number.
pub type DevicePass = Pass<LoggedCore>;

/// What a device leaves at its close.
pub type Ended = Closed<LoggedCore>;

/// A device with its turn lock.
#[derive(Drop)]
pub struct Device {
    lock: TurnLock<LoggedCore>,
    serial: u64,
    limits: Limits,
    pub(crate) alloc: Global,
    ghost same: { serial ≡ (opened_with lock).setup.serial },
    ghost limited: { limits ≡ (opened_with lock).setup.limits },
}

/// What handles will share of an object, if something is known of one.
fn keep(alloc: Global, info: Option<Info>) -> Result<Option<Arc<Info>>, NoMemory>
    ensures { IfOk result (λ kept. option_map arc_value kept ≡ info) }
{
    match info {
        Some(info) => Ok(Some(Arc::new(alloc, info)?)),
        None => Ok(None),
    }
}

/// The handle of what an answer made, where so much of it was kept.
fn handle_from(serial: u64, kept: Option<Arc<Info>>, answer: Answer) -> Option<Handle>
    ensures { result ≡ option_and_then (λ known. handle_of serial known answer) (option_map arc_value kept) }
{
    match kept {
        Some(info) => handle_of(serial, info, answer),
        None => None,
    }
}

/// What the handle of what a finish makes of a recording will share.
fn keep_finished(alloc: Global, recording: &Recording) -> Result<Arc<Info>, NoMemory>
    ensures { IfOk result (λ kept. arc_value kept ≡ finished_info recording.now.targets recording.now) }
{
    let info = finished_info(alloc, recording)?;
    Ok(Arc::new(alloc, info)?)
}

/// Puts back what a finish took.
fn put_back(recorder: &mut Recorder, event: Event)
    requires { HasTaken event recorder.old }
    ensures { recorder.new ≡ given_back event recorder.old }
{
    match event {
        Event::Finish { recording, .. } | Event::FinishBundle { recording, .. } => {
            recorder.put_back(recording)
        }
        _ => unreachable!(),
    }
}

impl Device {
    ghost use Rattle.wg_history.specs.Answers.{Run};

    /// A device with nothing on it, and its passes in the order of their numbers. Its resources may have
    /// `budget` bytes. The caller gives each device another serial. The limits are those of `wg_limits`: the
    /// defaults, or what `asked` answers.
    pub fn open(
        alloc: Global,
        budget: u64,
        serial: u64,
        limits: &Limits,
        callers: u32,
    ) -> Result<(Device, Vec<DevicePass>), NoMemory>
        requires { (0 < callers) × (callers ≤ 65536) }
        ensures device { IfOk result (λ t. (setup_of t.0.lock ≡ record { serial = serial; budget = budget; limits = limits.now })
            × ((opened_with t.0.lock).history ≡ []) × (callers_of t.0.lock ≡ callers)) }
        ensures passes { IfOk result (λ t. (vec_len t.1 ≡ callers) × AreFresh t.0.lock 0 t.1.items) }
        ensures fronts { IfOk result (λ t. FrontsAre history_of t.0.lock t.1.items []) }
        ensures sound { IfOk result (λ t. AreSound history_of (λ c. c.setup) Run t.0.lock t.1.items) }
    {
        let (lock, passes) = TurnLock::open(
            alloc,
            LoggedCore::new(alloc, budget, serial, limits),
            callers,
        )?;
        Ok((
            Device {
                lock,
                serial,
                limits: *limits,
                alloc,
            },
            passes,
        ))
    }

    /// The limits that it was opened with, by which its recorders judge what they are given.
    pub fn limits(&self) -> &Limits
        ensures { result.now ≡ (setup_of self.now.lock).limits }
    {
        &self.limits
    }

    /// Sends an event, once the pass's turn has come.
    fn send(&self, rt: &impl Wait, pass: &mut DevicePass, event: Event) -> Result<Reply, NoMemory>
        requires { CanCall self.now.lock pass.old }
        ensures called { HasCalled self.now.lock pass.old pass.new }
        ensures done { IfOk result (λ reply. IsAct self.now.lock pass.old pass.new event reply) }
        ensures refused { IfErr result (λ _. HasNotMade self.now.lock pass.old pass.new) }
    {
        self.lock.act(rt, pass, event).map_err(|_| NoMemory)
    }

    /// Any call of the device over handles, with the handle of what it makes. A finish or a finishBundle that
    /// comes here hands over no commands: `finish` is for those of a recorder. All that the handle needs is
    /// taken before the event is sent.
    #[tactic(auto, using(crate::proofs::Calling::if_genuine))]
    pub fn ask(
        &self,
        rt: &impl Wait,
        pass: &mut DevicePass,
        request: &RequestOf<Handle>,
    ) -> Result<(Option<Handle>, Reply), NoMemory>
        requires { CanCall self.now.lock pass.old }
        ensures called { HasCalled self.now.lock pass.old pass.new }
        ensures done { IfOk result (λ t. IsAct self.now.lock pass.old pass.new (event_asked request.now) t.1) }
        ensures handle { IfOk result (λ t. t.0 ≡ handle_made (setup_of self.now.lock).serial request.now t.1.answer) }
        ensures genuine { IfOk result (λ t. AreGenuineIn self.now.lock pass.new (named request.now)
            → IfSome t.0 (λ handle. IsGenuineIn self.now.lock pass.new handle)) }
        ensures refused { IfErr result (λ _. HasNotMade self.now.lock pass.old pass.new) }
    {
        let info = keep(self.alloc, info_asked(self.alloc, request)?)?;
        let event = event_asked(self.alloc, request)?;
        let reply = self.send(rt, pass, event)?;
        let handle = handle_from(self.serial, info, reply.answer);
        Ok((handle, reply))
    }

    /// A call that makes an object.
    #[tactic(auto, using(crate::proofs::Calling::asked_gives))]
    pub(crate) fn make(
        &self,
        rt: &impl Wait,
        pass: &mut DevicePass,
        request: &RequestOf<Handle>,
    ) -> Result<(Handle, Reply), NoMemory>
        requires pass { CanCall self.now.lock pass.old }
        requires makes { is_some (kind_made request.now) ≡ true }
        ensures called { HasCalled self.now.lock pass.old pass.new }
        ensures done { IfOk result (λ t. IsAct self.now.lock pass.old pass.new (event_asked request.now) t.1) }
        ensures handle { IfOk result (λ t. IsHandleOf self.now.lock request.now t.1 t.0) }
        ensures genuine { IfOk result (λ t. AreGenuineIn self.now.lock pass.new (named request.now)
            → IsGenuineIn self.now.lock pass.new t.0) }
        ensures refused { IfErr result (λ _. HasNotMade self.now.lock pass.old pass.new) }
    {
        let (made, reply) = self.ask(rt, pass, request)?;
        match made {
            Some(handle) => Ok((handle, reply)),
            None => unreachable!(),
        }
    }

    /// A call that makes an object, which is handed over and dropped here, so that no caller drops one at its ways out.
    pub(crate) fn make_of(
        &self,
        rt: &impl Wait,
        pass: &mut DevicePass,
        request: RequestOf<Handle>,
    ) -> Result<(Handle, Reply), NoMemory>
        requires pass { CanCall self.now.lock pass.old }
        requires makes { is_some (kind_made request) ≡ true }
        ensures called { HasCalled self.now.lock pass.old pass.new }
        ensures done { IfOk result (λ t. IsAct self.now.lock pass.old pass.new (event_asked request) t.1) }
        ensures handle { IfOk result (λ t. IsHandleOf self.now.lock request t.1 t.0) }
        ensures genuine { IfOk result (λ t. AreGenuineIn self.now.lock pass.new (named request)
            → IsGenuineIn self.now.lock pass.new t.0) }
        ensures refused { IfErr result (λ _. HasNotMade self.now.lock pass.old pass.new) }
    {
        self.make(rt, pass, &request)
    }

    /// Ends the encoder of a recorder, by a finish, or by a finishBundle where the recorder is that of a bundle
    /// encoder: what it has kept moves into the event. A recorder that was ended before hands over nothing.
    /// Without memory it is as before.
    #[tactic(auto, using(crate::proofs::Calling::finished_genuine, crate::proofs::Calling::finished_gives, crate::proofs::Taking::finish_takes, crate::proofs::Taking::finish_gives_back, crate::proofs::Taking::is_as_before, crate::proofs::Taking::is_unchanged))]
    pub fn finish(
        &self,
        rt: &impl Wait,
        pass: &mut DevicePass,
        recorder: &mut Recorder,
    ) -> Result<(Handle, Reply), NoMemory>
        requires pass { CanCall self.now.lock pass.old }
        requires opened { is_some recorder.old.encoder ≡ true }
        ensures called { HasCalled self.now.lock pass.old pass.new }
        ensures done { IfOk result (λ t. IfSome recorder.old.encoder (λ encoder.
            IsAct self.now.lock pass.old pass.new (finish_of encoder recorder.old) t.1)) }
        ensures handle { IfOk result (λ t. handle_of (setup_of self.now.lock).serial (known_of_finish recorder.old) t.1.answer ≡ Some t.0) }
        ensures genuine { IfOk result (λ t. IsGenuineIn self.now.lock pass.new t.0) }
        ensures taken { IfOk result (λ _. recorder.new ≡ taken_out recorder.old) }
        ensures refused { IfErr result (λ _. HasNotMade self.now.lock pass.old pass.new) }
        ensures as_before { OnErr result (IsAsBefore recorder.old recorder.new) }
        ensures unchanged { OnErr result (recorder.old.takes < most_takes → recorder.new ≡ recorder.old) }
    {
        let encoder = recorder.encoder().unwrap();
        let recording = recorder.take();
        let Ok(info) = keep_finished(self.alloc, &recording) else {
            recorder.put_back(recording);
            return Err(NoMemory);
        };
        match self.lock.act(rt, pass, finish_event(encoder, recording)) {
            Ok(reply) => match handle_of(self.serial, info, reply.answer) {
                Some(handle) => Ok((handle, reply)),
                None => unreachable!(),
            },
            Err(refused) => {
                put_back(recorder, refused.call);
                Err(NoMemory)
            }
        }
    }

    /// Says that a recording call came after the end of its encoder or its pass.
    pub fn late(
        &self,
        rt: &impl Wait,
        pass: &mut DevicePass,
        encoder: ObjRef,
    ) -> Result<Reply, NoMemory>
        requires { CanCall self.now.lock pass.old }
        ensures called { HasCalled self.now.lock pass.old pass.new }
        ensures done { IfOk result (λ reply. IsAct self.now.lock pass.old pass.new (Event.Late encoder) reply) }
        ensures refused { IfErr result (λ _. HasNotMade self.now.lock pass.old pass.new) }
    {
        self.send(rt, pass, Event::Late { encoder })
    }

    /// Afterwards both passes have seen what each of them had seen. It takes no memory and waits for nobody.
    pub fn meet(&self, pass: &mut DevicePass, other: &mut DevicePass)
        requires { IsPassOf self.now.lock pass.old × IsPassOf self.now.lock other.old }
        ensures pass { IsPassOf self.now.lock pass.new × IsSamePass pass.old pass.new × IsSoundIn self.now.lock pass.new }
        ensures other { IsPassOf self.now.lock other.new × IsSamePass other.old other.new × IsSoundIn self.now.lock other.new }
        ensures same { front_in self.now.lock pass.new ≡ front_in self.now.lock other.new }
        ensures one { (front_in self.now.lock pass.new ≡ front_in self.now.lock pass.old)
            ⊎ (front_in self.now.lock pass.new ≡ front_in self.now.lock other.old) }
        ensures both { IsPrefix (front_in self.now.lock pass.old) (front_in self.now.lock pass.new)
            × IsPrefix (front_in self.now.lock other.old) (front_in self.now.lock pass.new) }
    {
        self.lock.meet(pass, other);
    }

    /// Ends the device, with all its passes in the order of their numbers. It takes no memory and waits for
    /// nobody.
    pub fn close(self, passes: Vec<DevicePass>) -> Ended
        requires all { vec_len passes ≡ callers_of self.lock }
        requires in_order { AreInOrder self.lock 0 passes.items }
        ensures setup { (state_of result).setup ≡ setup_of self.lock }
        ensures legal { Run (setup_of self.lock) (state_of result).history }
        ensures whole { IsWhole history_of self.lock passes.items (state_of result) (entries_of result) }
        ensures callers { passes_of result ≡ vec_len passes }
    {
        let Device { lock, .. } = self;
        lock.close(passes)
    }
}
