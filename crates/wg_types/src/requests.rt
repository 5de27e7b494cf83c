//! What callers ask of a device.
ghost use Rattle.std.specs.Prelude.{◌≡◌, IfOk};
ghost use Rattle.wg_types.specs.Refs.{first_of};
ghost use Rattle.wg_types.specs.Requests.{named, kind_made, map_refs};

use crate::NoMemory;
use crate::bindings::{GroupEntryOf, LayoutEntry, each_entry, map_entries};
use crate::groups::Interface;
use crate::handles::{BufferInfo, QueriesInfo};
use crate::items::Items;
use crate::refs::{self, Ask, Find};
use crate::render::{RenderDesc, TargetInfo};
use crate::replies::Filter;
use crate::samplers::SamplerDesc;
use crate::shared::Shared;
use crate::textures::{DataLayout, TextureInfo, TextureSpot, ViewAsked};
use crate::wanted::{Kind, Wanted};
use std::alloc::Global;

/// One call of a device, with the objects that it names as `R`. A pipeline with no layout derives one
/// itself; a layout of a pipeline layout that is none asks for no binding.
#[derive(Drop)]
pub enum RequestOf<R> {
    CreateBuffer {
        info: BufferInfo,
    },
    CreateTexture {
        info: TextureInfo,
    },
    CreateView {
        texture: R,
        asked: ViewAsked,
    },
    CreateSampler {
        desc: SamplerDesc,
    },
    CreateBindGroupLayout {
        entries: Shared<Items<LayoutEntry>>,
    },
    CreatePipelineLayout {
        layouts: Items<Option<R>>,
    },
    CreateBindGroup {
        layout: R,
        entries: Items<GroupEntryOf<R>>,
    },
    CreateComputePipeline {
        layout: Option<R>,
        iface: Shared<Interface>,
    },
    CreateRenderPipeline {
        layout: Option<R>,
        desc: Shared<RenderDesc>,
    },
    GetBindGroupLayout {
        pipeline: R,
        index: u32,
    },
    CreateQuerySet {
        info: QueriesInfo,
    },
    CreateEncoder,
    CreateBundleEncoder {
        targets: Shared<TargetInfo>,
    },
    Finish {
        encoder: R,
    },
    FinishBundle {
        encoder: R,
    },
    Submit {
        buffers: Items<R>,
    },
    WriteBuffer {
        buffer: R,
        offset: u64,
        size: u64,
    },
    WriteTexture {
        texture: R,
        spot: TextureSpot,
        layout: DataLayout,
        size: [u32; 3],
        data_size: u64,
    },
    Destroy {
        object: R,
    },
    Drop {
        object: R,
    },
    Complete {
        op: u64,
    },
    PushErrorScope {
        filter: Filter,
    },
    PopErrorScope,
    Lose,
    WorkDone,
    MapAsync {
        buffer: R,
        mode: u32,
        offset: u64,
        size: Option<u64>,
    },
    Unmap {
        buffer: R,
    },
}

impl<R> RequestOf<R> {
    /// The kind of the object that the call makes, if it makes one.
    pub fn kind_made(&self) -> Option<Kind>
        ensures { result ≡ kind_made self.now }
    {
        match self {
            RequestOf::CreateBuffer { .. } => Some(Kind::Buffer),
            RequestOf::CreateTexture { .. } => Some(Kind::Texture),
            RequestOf::CreateView { .. } => Some(Kind::View),
            RequestOf::CreateSampler { .. } => Some(Kind::Sampler),
            RequestOf::CreateBindGroupLayout { .. } => Some(Kind::GroupLayout),
            RequestOf::CreatePipelineLayout { .. } => Some(Kind::PipelineLayout),
            RequestOf::CreateBindGroup { .. } => Some(Kind::Group),
            RequestOf::CreateComputePipeline { .. } => Some(Kind::Compute),
            RequestOf::CreateRenderPipeline { .. } => Some(Kind::Render),
            RequestOf::GetBindGroupLayout { .. } => Some(Kind::GroupLayout),
            RequestOf::CreateQuerySet { .. } => Some(Kind::Queries),
            RequestOf::CreateEncoder => Some(Kind::Encoder),
            RequestOf::CreateBundleEncoder { .. } => Some(Kind::BundleEncoder),
            RequestOf::Finish { .. } => Some(Kind::CommandBuffer),
            RequestOf::FinishBundle { .. } => Some(Kind::Bundle),
            _ => None,
        }
    }

    /// What the first object answers, of those that the call names, that has an answer.
    pub fn first<E: Drop, A: Ask<R, E>>(&self, asked: &A) -> Option<E>
        ensures { result ≡ first_of (A.asks asked.now) (named self.now) }
    {
        match self {
            RequestOf::CreateView { texture, .. } => asked.ask(texture, Wanted::Texture),
            RequestOf::CreatePipelineLayout { layouts } => {
                refs::each_maybe(asked, layouts.as_slice(), Wanted::GroupLayout)
            }
            RequestOf::CreateBindGroup { layout, entries } => {
                if let Some(found) = asked.ask(layout, Wanted::GroupLayout) {
                    return Some(found);
                }
                each_entry(asked, entries.as_slice())
            }
            RequestOf::CreateComputePipeline { layout, .. }
            | RequestOf::CreateRenderPipeline { layout, .. } => {
                refs::maybe(asked, layout, Wanted::PipelineLayout)
            }
            RequestOf::GetBindGroupLayout { pipeline, .. } => asked.ask(pipeline, Wanted::Pipeline),
            RequestOf::Finish { encoder } => asked.ask(encoder, Wanted::Encoder),
            RequestOf::FinishBundle { encoder } => asked.ask(encoder, Wanted::BundleEncoder),
            RequestOf::Submit { buffers } => {
                refs::each(asked, buffers.as_slice(), Wanted::CommandBuffer)
            }
            RequestOf::WriteBuffer { buffer, .. }
            | RequestOf::MapAsync { buffer, .. }
            | RequestOf::Unmap { buffer } => asked.ask(buffer, Wanted::Buffer),
            RequestOf::WriteTexture { texture, .. } => asked.ask(texture, Wanted::Texture),
            RequestOf::Destroy { object } => asked.ask(object, Wanted::Destroyable),
            RequestOf::Drop { object } => asked.ask(object, Wanted::Object),
            _ => None,
        }
    }

    /// The call with other objects in place of those that it names.
    pub fn map<S: Drop, F: Find<R, S>>(
        &self,
        alloc: Global,
        find: &F,
    ) -> Result<RequestOf<S>, NoMemory>
        ensures { IfOk result (λ request. request ≡ map_refs (F.finds find.now) self.now) }
    {
        match self {
            RequestOf::CreateBuffer { info } => Ok(RequestOf::CreateBuffer { info: *info }),
            RequestOf::CreateTexture { info } => Ok(RequestOf::CreateTexture { info: *info }),
            RequestOf::CreateView { texture, asked } => Ok(RequestOf::CreateView {
                texture: find.find(texture)?,
                asked: *asked,
            }),
            RequestOf::CreateSampler { desc } => Ok(RequestOf::CreateSampler { desc: *desc }),
            RequestOf::CreateBindGroupLayout { entries } => Ok(RequestOf::CreateBindGroupLayout {
                entries: entries.share()?,
            }),
            RequestOf::CreatePipelineLayout { layouts } => Ok(RequestOf::CreatePipelineLayout {
                layouts: refs::map_maybes(alloc, find, layouts.as_slice())?,
            }),
            RequestOf::CreateBindGroup { layout, entries } => Ok(RequestOf::CreateBindGroup {
                layout: find.find(layout)?,
                entries: map_entries(alloc, find, entries.as_slice())?,
            }),
            RequestOf::CreateComputePipeline { layout, iface } => {
                Ok(RequestOf::CreateComputePipeline {
                    layout: refs::map_maybe(find, layout)?,
                    iface: iface.share()?,
                })
            }
            RequestOf::CreateRenderPipeline { layout, desc } => {
                Ok(RequestOf::CreateRenderPipeline {
                    layout: refs::map_maybe(find, layout)?,
                    desc: desc.share()?,
                })
            }
            RequestOf::GetBindGroupLayout { pipeline, index } => {
                Ok(RequestOf::GetBindGroupLayout {
                    pipeline: find.find(pipeline)?,
                    index: *index,
                })
            }
            RequestOf::CreateQuerySet { info } => Ok(RequestOf::CreateQuerySet { info: *info }),
            RequestOf::CreateEncoder => Ok(RequestOf::CreateEncoder),
            RequestOf::CreateBundleEncoder { targets } => Ok(RequestOf::CreateBundleEncoder {
                targets: targets.share()?,
            }),
            RequestOf::Finish { encoder } => Ok(RequestOf::Finish {
                encoder: find.find(encoder)?,
            }),
            RequestOf::FinishBundle { encoder } => Ok(RequestOf::FinishBundle {
                encoder: find.find(encoder)?,
            }),
            RequestOf::Submit { buffers } => Ok(RequestOf::Submit {
                buffers: refs::map_items(alloc, find, buffers.as_slice())?,
            }),
            RequestOf::WriteBuffer {
                buffer,
                offset,
                size,
            } => Ok(RequestOf::WriteBuffer {
                buffer: find.find(buffer)?,
                offset: *offset,
                size: *size,
            }),
            RequestOf::WriteTexture {
                texture,
                spot,
                layout,
                size,
                data_size,
            } => Ok(RequestOf::WriteTexture {
                texture: find.find(texture)?,
                spot: *spot,
                layout: *layout,
                size: *size,
                data_size: *data_size,
            }),
            RequestOf::Destroy { object } => Ok(RequestOf::Destroy {
                object: find.find(object)?,
            }),
            RequestOf::Drop { object } => Ok(RequestOf::Drop {
                object: find.find(object)?,
            }),
            RequestOf::Complete { op } => Ok(RequestOf::Complete { op: *op }),
            RequestOf::PushErrorScope { filter } => {
                Ok(RequestOf::PushErrorScope { filter: *filter })
            }
            RequestOf::PopErrorScope => Ok(RequestOf::PopErrorScope),
            RequestOf::Lose => Ok(RequestOf::Lose),
            RequestOf::WorkDone => Ok(RequestOf::WorkDone),
            RequestOf::MapAsync {
                buffer,
                mode,
                offset,
                size,
            } => Ok(RequestOf::MapAsync {
                buffer: find.find(buffer)?,
                mode: *mode,
                offset: *offset,
                size: *size,
            }),
            RequestOf::Unmap { buffer } => Ok(RequestOf::Unmap {
                buffer: find.find(buffer)?,
            }),
        }
    }
}
