//! The calls of a device that make objects.
ghost use Rattle.std.specs.Prelude.{◌≡◌, All, map, option_map, option_copied, IfOk, IfErr, IfSome};
ghost use Rattle.wg_types.specs.Bindings.{entries_named, map_entry};
ghost use Rattle.wg_types.specs.declared.requests.RequestOf.TheVariants as request;
ghost use Rattle.wg_calls.specs.Calls.{reference_of, opened_for, opened_with};
ghost use Rattle.wg_calls.specs.Judged.{IsRecorderOf};
ghost use Rattle.wg_device.specs.Fronts.{setup_of, CanCall, HasCalled, HasNotMade, IsAct};
ghost use Rattle.wg_device.specs.Handles.{IsHandleOf, IsGenuineIn, AreGenuineIn, whole};

use crate::device::{Device, DevicePass};
use std::sync::Wait;
use wg_calls::{bundle_recorder_for, recorder_for};
use wg_core::Event;
use wg_encoder::Recorder;
use wg_entry::NoMemory;
use wg_types::bindings::{GroupEntryOf, IfaceEntry, LayoutEntry};
use wg_types::groups::Interface;
use wg_types::handles::{BufferInfo, Handle, QueriesInfo};
use wg_types::items::Items;
use wg_types::render::{RenderDesc, TargetInfo};
use wg_types::replies::Reply;
use wg_types::requests::RequestOf;
use wg_types::samplers::SamplerDesc;
use wg_types::shared::Shared;
use wg_types::textures::{TextureInfo, ViewAsked, ViewDesc};

/// Another handle of the same object, if there is one.
fn shared(handle: Option<&Handle>) -> Result<Option<Handle>, NoMemory>
    ensures { IfOk result (λ shared. shared ≡ option_copied handle.entry) }
{
    match handle {
        Some(handle) => {
            let shared = handle.share()?;
            return Ok(Some(shared));
        }
        None => return Ok(None),
    }
}

impl Device {
    /// Makes a buffer (WebGPU, "createBuffer").
    #[tactic(auto, using(crate::proofs::Calling::none_named))]
    pub fn create_buffer(
        &self,
        rt: &impl Wait,
        pass: &mut DevicePass,
        info: BufferInfo,
    ) -> Result<(Handle, Reply), NoMemory>
        requires { CanCall self.now.lock pass.old }
        ensures called { HasCalled self.now.lock pass.old pass.new }
        ensures done { IfOk result (λ t. IsAct self.now.lock pass.old pass.new (Event.CreateBuffer info) t.1) }
        ensures handle { IfOk result (λ t. IsHandleOf self.now.lock (request.CreateBuffer info) t.1 t.0) }
        ensures genuine { IfOk result (λ t. IsGenuineIn self.now.lock pass.new t.0) }
        ensures refused { IfErr result (λ _. HasNotMade self.now.lock pass.old pass.new) }
    {
        self.make_of(rt, pass, RequestOf::CreateBuffer { info })
    }

    /// Makes a texture (WebGPU, "createTexture").
    #[tactic(auto, using(crate::proofs::Calling::none_named))]
    pub fn create_texture(
        &self,
        rt: &impl Wait,
        pass: &mut DevicePass,
        info: TextureInfo,
    ) -> Result<(Handle, Reply), NoMemory>
        requires { CanCall self.now.lock pass.old }
        ensures called { HasCalled self.now.lock pass.old pass.new }
        ensures done { IfOk result (λ t. IsAct self.now.lock pass.old pass.new (Event.CreateTexture info) t.1) }
        ensures handle { IfOk result (λ t. IsHandleOf self.now.lock (request.CreateTexture info) t.1 t.0) }
        ensures genuine { IfOk result (λ t. IsGenuineIn self.now.lock pass.new t.0) }
        ensures refused { IfErr result (λ _. HasNotMade self.now.lock pass.old pass.new) }
    {
        self.make_of(rt, pass, RequestOf::CreateTexture { info })
    }

    /// Makes a view of a texture (WebGPU, "createView"), of which no part is left out.
    pub fn create_view(
        &self,
        rt: &impl Wait,
        pass: &mut DevicePass,
        texture: &Handle,
        desc: ViewDesc,
    ) -> Result<(Handle, Reply), NoMemory>
        requires { CanCall self.now.lock pass.old }
        ensures called { HasCalled self.now.lock pass.old pass.new }
        ensures done { IfOk result (λ t. IsAct self.now.lock pass.old pass.new (Event.CreateView texture.now.reference desc) t.1) }
        ensures handle { IfOk result (λ t. IsHandleOf self.now.lock (request.CreateView texture.now (whole desc)) t.1 t.0) }
        ensures genuine { IfOk result (λ t. IsGenuineIn self.now.lock pass.new texture.now → IsGenuineIn self.now.lock pass.new t.0) }
        ensures refused { IfErr result (λ _. HasNotMade self.now.lock pass.old pass.new) }
    {
        let asked = ViewAsked {
            dim: Some(desc.dim),
            aspect: desc.aspect,
            base_mip: desc.base_mip,
            mips: Some(desc.mips),
            base_layer: desc.base_layer,
            layers: Some(desc.layers),
        };
        let texture = texture.share()?;
        self.make_of(rt, pass, RequestOf::CreateView { texture, asked })
    }

    /// Makes a sampler (WebGPU, "createSampler").
    #[tactic(auto, using(crate::proofs::Calling::none_named))]
    pub fn create_sampler(
        &self,
        rt: &impl Wait,
        pass: &mut DevicePass,
        desc: SamplerDesc,
    ) -> Result<(Handle, Reply), NoMemory>
        requires { CanCall self.now.lock pass.old }
        ensures called { HasCalled self.now.lock pass.old pass.new }
        ensures done { IfOk result (λ t. IsAct self.now.lock pass.old pass.new (Event.CreateSampler desc) t.1) }
        ensures handle { IfOk result (λ t. IsHandleOf self.now.lock (request.CreateSampler desc) t.1 t.0) }
        ensures genuine { IfOk result (λ t. IsGenuineIn self.now.lock pass.new t.0) }
        ensures refused { IfErr result (λ _. HasNotMade self.now.lock pass.old pass.new) }
    {
        self.make_of(rt, pass, RequestOf::CreateSampler { desc })
    }

    /// Makes a bind group layout (WebGPU, "createBindGroupLayout").
    #[tactic(auto, using(crate::proofs::Calling::none_named))]
    pub fn create_bind_group_layout(
        &self,
        rt: &impl Wait,
        pass: &mut DevicePass,
        entries: Vec<LayoutEntry>,
    ) -> Result<(Handle, Reply), NoMemory>
        requires { CanCall self.now.lock pass.old }
        ensures called { HasCalled self.now.lock pass.old pass.new }
        ensures done { IfOk result (λ t. IsAct self.now.lock pass.old pass.new (Event.CreateBindGroupLayout entries.items) t.1) }
        ensures handle { IfOk result (λ t. IsHandleOf self.now.lock (request.CreateBindGroupLayout entries.items) t.1 t.0) }
        ensures genuine { IfOk result (λ t. IsGenuineIn self.now.lock pass.new t.0) }
        ensures refused { IfErr result (λ _. HasNotMade self.now.lock pass.old pass.new) }
    {
        let entries = Shared::new(self.alloc, Items::from_vec(entries))?;
        self.make_of(rt, pass, RequestOf::CreateBindGroupLayout { entries })
    }

    /// Makes a pipeline layout (WebGPU, "createPipelineLayout"). A layout that is none has no entry.
    pub fn create_pipeline_layout(
        &self,
        rt: &impl Wait,
        pass: &mut DevicePass,
        layouts: Vec<Option<Handle>>,
    ) -> Result<(Handle, Reply), NoMemory>
        requires { CanCall self.now.lock pass.old }
        ensures called { HasCalled self.now.lock pass.old pass.new }
        ensures done { IfOk result (λ t. IsAct self.now.lock pass.old pass.new (Event.CreatePipelineLayout (map (option_map reference_of) layouts.items)) t.1) }
        ensures handle { IfOk result (λ t. IsHandleOf self.now.lock (request.CreatePipelineLayout layouts.items) t.1 t.0) }
        ensures genuine { IfOk result (λ t. All (λ layout. IfSome layout (λ given. IsGenuineIn self.now.lock pass.new given)) layouts.items
            → IsGenuineIn self.now.lock pass.new t.0) }
        ensures refused { IfErr result (λ _. HasNotMade self.now.lock pass.old pass.new) }
    {
        let layouts = Items::from_vec(layouts);
        self.make_of(rt, pass, RequestOf::CreatePipelineLayout { layouts })
    }

    /// Makes a bind group (WebGPU, "createBindGroup").
    pub fn create_bind_group(
        &self,
        rt: &impl Wait,
        pass: &mut DevicePass,
        layout: &Handle,
        entries: Vec<GroupEntryOf<Handle>>,
    ) -> Result<(Handle, Reply), NoMemory>
        requires { CanCall self.now.lock pass.old }
        ensures called { HasCalled self.now.lock pass.old pass.new }
        ensures done { IfOk result (λ t. IsAct self.now.lock pass.old pass.new
            (Event.CreateBindGroup layout.now.reference (map (map_entry reference_of) entries.items)) t.1) }
        ensures handle { IfOk result (λ t. IsHandleOf self.now.lock (request.CreateBindGroup layout.now entries.items) t.1 t.0) }
        ensures genuine { IfOk result (λ t. IsGenuineIn self.now.lock pass.new layout.now → AreGenuineIn self.now.lock pass.new (entries_named entries.items)
            → IsGenuineIn self.now.lock pass.new t.0) }
        ensures refused { IfErr result (λ _. HasNotMade self.now.lock pass.old pass.new) }
    {
        let layout = layout.share()?;
        let entries = Items::from_vec(entries);
        self.make_of(rt, pass, RequestOf::CreateBindGroup { layout, entries })
    }

    /// Makes a compute pipeline (WebGPU, "createComputePipeline"), whose shader uses these bindings. With no
    /// layout it derives one from them. Where they clash (rule 167), or what is derived is no layout that may be
    /// made (rule 168), that is a validation error.
    pub fn create_compute_pipeline(
        &self,
        rt: &impl Wait,
        pass: &mut DevicePass,
        layout: Option<&Handle>,
        iface: Vec<IfaceEntry>,
    ) -> Result<(Handle, Reply), NoMemory>
        requires { CanCall self.now.lock pass.old }
        ensures called { HasCalled self.now.lock pass.old pass.new }
        ensures done { IfOk result (λ t. IsAct self.now.lock pass.old pass.new
            (Event.CreateComputePipeline (option_map reference_of (option_copied layout.entry)) (record { entries = iface.items })) t.1) }
        ensures handle { IfOk result (λ t. IsHandleOf self.now.lock (request.CreateComputePipeline (option_copied layout.entry) (record { entries = iface.items })) t.1 t.0) }
        ensures genuine { IfOk result (λ t. IfSome (option_copied layout.entry) (λ layout. IsGenuineIn self.now.lock pass.new layout)
            → IsGenuineIn self.now.lock pass.new t.0) }
        ensures refused { IfErr result (λ _. HasNotMade self.now.lock pass.old pass.new) }
    {
        let layout = shared(layout)?;
        let iface = Interface {
            entries: Items::from_vec(iface),
        };
        let iface = Shared::new(self.alloc, iface)?;
        self.make_of(rt, pass, RequestOf::CreateComputePipeline { layout, iface })
    }

    /// Makes a render pipeline (WebGPU, "createRenderPipeline"). With no layout it derives one from what its
    /// shaders use, and rules 167 and 168 are asked as of a compute pipeline.
    pub fn create_render_pipeline(
        &self,
        rt: &impl Wait,
        pass: &mut DevicePass,
        layout: Option<&Handle>,
        desc: RenderDesc,
    ) -> Result<(Handle, Reply), NoMemory>
        requires { CanCall self.now.lock pass.old }
        ensures called { HasCalled self.now.lock pass.old pass.new }
        ensures done { IfOk result (λ t. IsAct self.now.lock pass.old pass.new
            (Event.CreateRenderPipeline (option_map reference_of (option_copied layout.entry)) desc) t.1) }
        ensures handle { IfOk result (λ t. IsHandleOf self.now.lock (request.CreateRenderPipeline (option_copied layout.entry) desc) t.1 t.0) }
        ensures genuine { IfOk result (λ t. IfSome (option_copied layout.entry) (λ layout. IsGenuineIn self.now.lock pass.new layout)
            → IsGenuineIn self.now.lock pass.new t.0) }
        ensures refused { IfErr result (λ _. HasNotMade self.now.lock pass.old pass.new) }
    {
        let layout = shared(layout)?;
        let desc = Shared::new(self.alloc, desc)?;
        self.make_of(rt, pass, RequestOf::CreateRenderPipeline { layout, desc })
    }

    /// Makes the bind group layout of a group of a pipeline of either kind (WebGPU, "getBindGroupLayout"). It
    /// holds the pipeline, and where that derived its layout itself the groups that are made of it serve that
    /// pipeline alone. A group that the pipeline's layout has not is a validation error, rule 169.
    pub fn get_bind_group_layout(
        &self,
        rt: &impl Wait,
        pass: &mut DevicePass,
        pipeline: &Handle,
        index: u32,
    ) -> Result<(Handle, Reply), NoMemory>
        requires { CanCall self.now.lock pass.old }
        ensures called { HasCalled self.now.lock pass.old pass.new }
        ensures done { IfOk result (λ t. IsAct self.now.lock pass.old pass.new (Event.GetBindGroupLayout pipeline.now.reference index) t.1) }
        ensures handle { IfOk result (λ t. IsHandleOf self.now.lock (request.GetBindGroupLayout pipeline.now index) t.1 t.0) }
        ensures genuine { IfOk result (λ t. IsGenuineIn self.now.lock pass.new pipeline.now → IsGenuineIn self.now.lock pass.new t.0) }
        ensures refused { IfErr result (λ _. HasNotMade self.now.lock pass.old pass.new) }
    {
        let pipeline = pipeline.share()?;
        self.make_of(rt, pass, RequestOf::GetBindGroupLayout { pipeline, index })
    }

    /// Makes a query set of so many occlusion queries (WebGPU, "QuerySet Creation"). More than the limit are
    /// a validation error, rule 170; those for which the budget has no room are out of memory, rule 13.
    #[tactic(auto, using(crate::proofs::Calling::none_named))]
    pub fn create_query_set(
        &self,
        rt: &impl Wait,
        pass: &mut DevicePass,
        count: u32,
    ) -> Result<(Handle, Reply), NoMemory>
        requires { CanCall self.now.lock pass.old }
        ensures called { HasCalled self.now.lock pass.old pass.new }
        ensures done { IfOk result (λ t. IsAct self.now.lock pass.old pass.new (Event.CreateQuerySet (record { count = count })) t.1) }
        ensures handle { IfOk result (λ t. IsHandleOf self.now.lock (request.CreateQuerySet (record { count = count })) t.1 t.0) }
        ensures genuine { IfOk result (λ t. IsGenuineIn self.now.lock pass.new t.0) }
        ensures refused { IfErr result (λ _. HasNotMade self.now.lock pass.old pass.new) }
    {
        let info = QueriesInfo { count };
        self.make_of(rt, pass, RequestOf::CreateQuerySet { info })
    }

    /// Makes an encoder (WebGPU, "createCommandEncoder"), with a recorder that is open for it and judges by the
    /// limits of the device.
    #[tactic(auto, using(crate::proofs::Calling::none_named, crate::proofs::Calling::opens_own))]
    pub fn create_encoder(
        &self,
        rt: &impl Wait,
        pass: &mut DevicePass,
    ) -> Result<(Recorder, Handle, Reply), NoMemory>
        requires { CanCall self.now.lock pass.old }
        ensures called { HasCalled self.now.lock pass.old pass.new }
        ensures done { IfOk result (λ t. IsAct self.now.lock pass.old pass.new Event.CreateEncoder t.2) }
        ensures handle { IfOk result (λ t. IsHandleOf self.now.lock request.CreateEncoder t.2 t.1) }
        ensures recorder { IfOk result (λ t. t.0 ≡ opened_for (setup_of self.now.lock).limits t.1.reference) }
        ensures own { IfOk result (λ t. IsRecorderOf (setup_of self.now.lock) t.0) }
        ensures genuine { IfOk result (λ t. IsGenuineIn self.now.lock pass.new t.1) }
        ensures refused { IfErr result (λ _. HasNotMade self.now.lock pass.old pass.new) }
    {
        let (handle, reply) = self.make_of(rt, pass, RequestOf::CreateEncoder)?;
        let recorder = recorder_for(self.alloc, handle.reference(), self.limits());
        Ok((recorder, handle, reply))
    }

    /// Makes a bundle encoder that draws to these targets (WebGPU, "createRenderBundleEncoder"), with a recorder
    /// that is open for it and judges by the limits of the device. `finish` ends it, and makes the bundle.
    #[tactic(auto, using(crate::proofs::Calling::none_named, crate::proofs::Calling::opens_own))]
    pub fn create_bundle_encoder(
        &self,
        rt: &impl Wait,
        pass: &mut DevicePass,
        targets: TargetInfo,
    ) -> Result<(Recorder, Handle, Reply), NoMemory>
        requires { CanCall self.now.lock pass.old }
        ensures called { HasCalled self.now.lock pass.old pass.new }
        ensures done { IfOk result (λ t. IsAct self.now.lock pass.old pass.new (Event.CreateBundleEncoder targets) t.2) }
        ensures handle { IfOk result (λ t. IsHandleOf self.now.lock (request.CreateBundleEncoder targets) t.2 t.1) }
        ensures recorder { IfOk result (λ t. t.0 ≡ opened_with (setup_of self.now.lock).limits targets t.1.reference) }
        ensures own { IfOk result (λ t. IsRecorderOf (setup_of self.now.lock) t.0) }
        ensures genuine { IfOk result (λ t. IsGenuineIn self.now.lock pass.new t.1) }
        ensures refused { IfErr result (λ _. HasNotMade self.now.lock pass.old pass.new) }
    {
        let targets = Shared::new(self.alloc, targets)?;
        let kept = targets.share()?;
        let (handle, reply) = self.make_of(rt, pass, RequestOf::CreateBundleEncoder { targets })?;
        let recorder = bundle_recorder_for(self.alloc, handle.reference(), kept, self.limits());
        Ok((recorder, handle, reply))
    }
}
