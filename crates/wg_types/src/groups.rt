//! What is known of bind groups, of their layouts, and of pipelines.

use crate::bindings::{BoundEntry, IfaceEntry, LayoutEntry};
use crate::handles::ObjRef;
use crate::items::Items;
use crate::render::RenderDesc;
use crate::shared::Shared;

/// What a bind group layout was made with (WebGPU, "GPUBindGroupLayout"). One that was got of a pipeline
/// has that pipeline, and is exclusive to it, by its number, if the pipeline derived its layout itself.
#[derive(Clone, Drop)]
pub struct GroupLayoutInfo {
    pub entries: Shared<Items<LayoutEntry>>,
    pub exclusive: Option<u64>,
    pub pipeline: Option<ObjRef>,
}

/// What a pipeline layout was made with (WebGPU, "GPUPipelineLayout"): the layouts of groups that it names, and
/// what is known of the layout of each group, where a layout that was null has no entries.
#[derive(Clone, Drop)]
pub struct PipelineLayoutInfo {
    pub layouts: Items<ObjRef>,
    pub layouts_info: Items<Shared<GroupLayoutInfo>>,
}

/// What a bind group was made with (WebGPU, "GPUBindGroup").
#[derive(Clone, Drop)]
pub struct GroupInfo {
    pub layout: ObjRef,
    pub layout_info: Shared<GroupLayoutInfo>,
    pub entries: Items<BoundEntry>,
}

/// What the shaders of a pipeline use of its groups.
#[derive(Clone, Drop)]
pub struct Interface {
    pub entries: Items<IfaceEntry>,
}

/// What a compute pipeline was made with (WebGPU, "GPUComputePipeline"). One that derived its layout itself
/// is automatic: `layout` is none then, and `layout_info` has what was derived, with no references.
#[derive(Clone, Drop)]
pub struct ComputeInfo {
    pub layout: Option<ObjRef>,
    pub layout_info: Shared<PipelineLayoutInfo>,
    pub auto: bool,
    pub iface: Shared<Interface>,
}

/// What a render pipeline was made with (WebGPU, "GPURenderPipeline"), automatic as a compute pipeline is.
#[derive(Clone, Drop)]
pub struct RenderInfo {
    pub layout: Option<ObjRef>,
    pub layout_info: Shared<PipelineLayoutInfo>,
    pub auto: bool,
    pub desc: Shared<RenderDesc>,
}
