//! The calls of a device that make no objects.
ghost use Rattle.std.specs.Prelude.{◌≡◌, map, IfOk, IfErr};
ghost use Rattle.wg_calls.specs.Calls.{reference_of, event_asked};
ghost use Rattle.wg_device.specs.Fronts.{CanCall, HasCalled, HasNotMade, IsAct};

use crate::device::{Device, DevicePass};
use std::alloc::Global;
use std::sync::Wait;
use wg_core::Event;
use wg_entry::NoMemory;
use wg_types::handles::Handle;
use wg_types::items::Items;
use wg_types::replies::{Filter, Reply};
use wg_types::requests::RequestOf;
use wg_types::textures::{DataLayout, TextureSpot};

/// Other handles of the same objects.
fn shared_all(alloc: Global, handles: &[Handle]) -> Result<Items<Handle>, NoMemory>
    ensures { IfOk result (λ shared. shared ≡ handles.now) }
{
    let mut shared = Items::new(alloc);
    for handle in handles {
        shared.push(handle.share()?)?;
    }
    Ok(shared)
}

impl Device {
    /// A call of which the reply alone is told.
    fn tell(
        &self,
        rt: &impl Wait,
        pass: &mut DevicePass,
        request: &RequestOf<Handle>,
    ) -> Result<Reply, NoMemory>
        requires { CanCall self.now.lock pass.old }
        ensures called { HasCalled self.now.lock pass.old pass.new }
        ensures done { IfOk result (λ reply. IsAct self.now.lock pass.old pass.new (event_asked request.now) reply) }
        ensures refused { IfErr result (λ _. HasNotMade self.now.lock pass.old pass.new) }
    {
        let (_, reply) = self.ask(rt, pass, request)?;
        Ok(reply)
    }

    /// The same of a call that is handed over, and dropped here, so that no caller drops one at its ways out.
    fn tell_of(
        &self,
        rt: &impl Wait,
        pass: &mut DevicePass,
        request: RequestOf<Handle>,
    ) -> Result<Reply, NoMemory>
        requires { CanCall self.now.lock pass.old }
        ensures called { HasCalled self.now.lock pass.old pass.new }
        ensures done { IfOk result (λ reply. IsAct self.now.lock pass.old pass.new (event_asked request) reply) }
        ensures refused { IfErr result (λ _. HasNotMade self.now.lock pass.old pass.new) }
    {
        self.tell(rt, pass, &request)
    }

    /// Submits command buffers (WebGPU, "submit").
    pub fn submit(
        &self,
        rt: &impl Wait,
        pass: &mut DevicePass,
        buffers: &[Handle],
    ) -> Result<Reply, NoMemory>
        requires { CanCall self.now.lock pass.old }
        ensures called { HasCalled self.now.lock pass.old pass.new }
        ensures done { IfOk result (λ reply. IsAct self.now.lock pass.old pass.new (Event.Submit (map reference_of buffers.now)) reply) }
        ensures refused { IfErr result (λ _. HasNotMade self.now.lock pass.old pass.new) }
    {
        let buffers = shared_all(self.alloc, buffers)?;
        self.tell_of(rt, pass, RequestOf::Submit { buffers })
    }

    /// Writes to a buffer (WebGPU, "writeBuffer"). Offset and size are in bytes.
    pub fn write_buffer(
        &self,
        rt: &impl Wait,
        pass: &mut DevicePass,
        buffer: &Handle,
        offset: u64,
        size: u64,
    ) -> Result<Reply, NoMemory>
        requires { CanCall self.now.lock pass.old }
        ensures called { HasCalled self.now.lock pass.old pass.new }
        ensures done { IfOk result (λ reply. IsAct self.now.lock pass.old pass.new (Event.WriteBuffer buffer.now.reference offset size) reply) }
        ensures refused { IfErr result (λ _. HasNotMade self.now.lock pass.old pass.new) }
    {
        let buffer = buffer.share()?;
        let request = RequestOf::WriteBuffer {
            buffer,
            offset,
            size,
        };
        self.tell_of(rt, pass, request)
    }

    /// Writes to a texture (WebGPU, "writeTexture"). The size is in texels, that of the data in bytes.
    pub fn write_texture(
        &self,
        rt: &impl Wait,
        pass: &mut DevicePass,
        texture: &Handle,
        spot: TextureSpot,
        layout: DataLayout,
        size: [u32; 3],
        data_size: u64,
    ) -> Result<Reply, NoMemory>
        requires { CanCall self.now.lock pass.old }
        ensures called { HasCalled self.now.lock pass.old pass.new }
        ensures done { IfOk result (λ reply. IsAct self.now.lock pass.old pass.new
            (Event.WriteTexture texture.now.reference spot layout size data_size) reply) }
        ensures refused { IfErr result (λ _. HasNotMade self.now.lock pass.old pass.new) }
    {
        let texture = texture.share()?;
        let request = RequestOf::WriteTexture {
            texture,
            spot,
            layout,
            size,
            data_size,
        };
        self.tell_of(rt, pass, request)
    }

    /// Asks to map a range of a buffer (WebGPU, "mapAsync"), in bytes. The mode is its bits (WebGPU, "GPUMapMode").
    pub fn map_async(
        &self,
        rt: &impl Wait,
        pass: &mut DevicePass,
        buffer: &Handle,
        mode: u32,
        offset: u64,
        size: u64,
    ) -> Result<Reply, NoMemory>
        requires { CanCall self.now.lock pass.old }
        ensures called { HasCalled self.now.lock pass.old pass.new }
        ensures done { IfOk result (λ reply. IsAct self.now.lock pass.old pass.new (Event.MapAsync buffer.now.reference mode offset size) reply) }
        ensures refused { IfErr result (λ _. HasNotMade self.now.lock pass.old pass.new) }
    {
        let buffer = buffer.share()?;
        let request = RequestOf::MapAsync {
            buffer,
            mode,
            offset,
            size: Some(size),
        };
        self.tell_of(rt, pass, request)
    }

    /// Unmaps a buffer (WebGPU, "unmap").
    pub fn unmap(
        &self,
        rt: &impl Wait,
        pass: &mut DevicePass,
        buffer: &Handle,
    ) -> Result<Reply, NoMemory>
        requires { CanCall self.now.lock pass.old }
        ensures called { HasCalled self.now.lock pass.old pass.new }
        ensures done { IfOk result (λ reply. IsAct self.now.lock pass.old pass.new (Event.Unmap buffer.now.reference) reply) }
        ensures refused { IfErr result (λ _. HasNotMade self.now.lock pass.old pass.new) }
    {
        let buffer = buffer.share()?;
        self.tell_of(rt, pass, RequestOf::Unmap { buffer })
    }

    /// Asks to be told once all operations that were issued are complete (WebGPU, "onSubmittedWorkDone").
    pub fn work_done(&self, rt: &impl Wait, pass: &mut DevicePass) -> Result<Reply, NoMemory>
        requires { CanCall self.now.lock pass.old }
        ensures called { HasCalled self.now.lock pass.old pass.new }
        ensures done { IfOk result (λ reply. IsAct self.now.lock pass.old pass.new Event.WorkDone reply) }
        ensures refused { IfErr result (λ _. HasNotMade self.now.lock pass.old pass.new) }
    {
        self.tell_of(rt, pass, RequestOf::WorkDone)
    }

    /// Destroys a resource (WebGPU, "destroy" of a buffer, a texture or a query set).
    pub fn destroy(
        &self,
        rt: &impl Wait,
        pass: &mut DevicePass,
        object: &Handle,
    ) -> Result<Reply, NoMemory>
        requires { CanCall self.now.lock pass.old }
        ensures called { HasCalled self.now.lock pass.old pass.new }
        ensures done { IfOk result (λ reply. IsAct self.now.lock pass.old pass.new (Event.Destroy object.now.reference) reply) }
        ensures refused { IfErr result (λ _. HasNotMade self.now.lock pass.old pass.new) }
    {
        let object = object.share()?;
        self.tell_of(rt, pass, RequestOf::Destroy { object })
    }

    /// Says that the caller lets go of an object, which it will not name again.
    pub fn drop_object(
        &self,
        rt: &impl Wait,
        pass: &mut DevicePass,
        object: &Handle,
    ) -> Result<Reply, NoMemory>
        requires { CanCall self.now.lock pass.old }
        ensures called { HasCalled self.now.lock pass.old pass.new }
        ensures done { IfOk result (λ reply. IsAct self.now.lock pass.old pass.new (Event.Drop object.now.reference) reply) }
        ensures refused { IfErr result (λ _. HasNotMade self.now.lock pass.old pass.new) }
    {
        let object = object.share()?;
        self.tell_of(rt, pass, RequestOf::Drop { object })
    }

    /// Opens an error scope (WebGPU, "pushErrorScope").
    pub fn push_error_scope(
        &self,
        rt: &impl Wait,
        pass: &mut DevicePass,
        filter: Filter,
    ) -> Result<Reply, NoMemory>
        requires { CanCall self.now.lock pass.old }
        ensures called { HasCalled self.now.lock pass.old pass.new }
        ensures done { IfOk result (λ reply. IsAct self.now.lock pass.old pass.new (Event.PushErrorScope filter) reply) }
        ensures refused { IfErr result (λ _. HasNotMade self.now.lock pass.old pass.new) }
    {
        self.tell_of(rt, pass, RequestOf::PushErrorScope { filter })
    }

    /// Closes the innermost error scope (WebGPU, "popErrorScope").
    pub fn pop_error_scope(&self, rt: &impl Wait, pass: &mut DevicePass) -> Result<Reply, NoMemory>
        requires { CanCall self.now.lock pass.old }
        ensures called { HasCalled self.now.lock pass.old pass.new }
        ensures done { IfOk result (λ reply. IsAct self.now.lock pass.old pass.new Event.PopErrorScope reply) }
        ensures refused { IfErr result (λ _. HasNotMade self.now.lock pass.old pass.new) }
    {
        self.tell_of(rt, pass, RequestOf::PopErrorScope)
    }

    /// Says that all operations up to a number are complete.
    pub fn complete(
        &self,
        rt: &impl Wait,
        pass: &mut DevicePass,
        op: u64,
    ) -> Result<Reply, NoMemory>
        requires { CanCall self.now.lock pass.old }
        ensures called { HasCalled self.now.lock pass.old pass.new }
        ensures done { IfOk result (λ reply. IsAct self.now.lock pass.old pass.new (Event.Complete op) reply) }
        ensures refused { IfErr result (λ _. HasNotMade self.now.lock pass.old pass.new) }
    {
        self.tell_of(rt, pass, RequestOf::Complete { op })
    }

    /// Says that the device is lost (WebGPU, "lost" of a device).
    pub fn lose(&self, rt: &impl Wait, pass: &mut DevicePass) -> Result<Reply, NoMemory>
        requires { CanCall self.now.lock pass.old }
        ensures called { HasCalled self.now.lock pass.old pass.new }
        ensures done { IfOk result (λ reply. IsAct self.now.lock pass.old pass.new Event.Lose reply) }
        ensures refused { IfErr result (λ _. HasNotMade self.now.lock pass.old pass.new) }
    {
        self.tell_of(rt, pass, RequestOf::Lose)
    }
}
