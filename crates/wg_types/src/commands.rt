//! The commands of recorders, and where they stand.
ghost use Rattle.std.specs.Prelude.{◌≡◌, ◌++◌, IfOk, OnOk, option_copied};
ghost use Rattle.std.specs.List.{list_any, flat_map};
ghost use Rattle.wg_trace.specs.Added.{BeginsWith};
ghost use Rattle.wg_types.specs.Commands.{fits, stands, place_wanted, kind_begun, bracket, is_begin, is_end, render_begun, named, map_refs, first_of};

use crate::NoMemory;
use crate::handles::Handle;
use crate::items::Items;
use crate::refs::{self, Ask, Find, Gather, Test, Tested};
use crate::render::{RenderBeginOf, Viewport};
use crate::shared::Shared;
use crate::textures::{DataLayout, TextureSpot};
use crate::vertex::IndexFormat;
use crate::wanted::{Kind, Wanted};
use std::alloc::Global;

/// What a command stands on: the encoder itself, or the pass with this number. Passes are numbered
/// from 0 by the commands that begin them.
#[derive(Clone, Copy, PartialEq, Eq)]
pub enum On {
    Encoder,
    Pass(u32),
}

/// The kinds of places on which commands stand: a command encoder, a pass of it, or a bundle encoder
/// (WebGPU, "Command Encoding" and "Bundles").
#[derive(Clone, Copy, PartialEq, Eq)]
pub enum CommandPlace {
    Encoder,
    ComputePass,
    RenderPass,
    Bundle,
}

/// What a command opens or closes on what it stands on: a pass, or a debug group (WebGPU, "Command
/// Encoding" and "Debug Markers").
#[derive(Clone, Copy, PartialEq, Eq)]
pub enum Bracket {
    BeginComputePass,
    BeginRenderPass,
    EndPass,
    PushGroup,
    PopGroup,
    Neither,
}

/// One command, with the objects that it names as `R`: handles, or names of a script. Offsets and sizes
/// of buffers are in bytes, origins and sizes of textures in texels (WebGPU, "Command Encoding"). A copy
/// from texture to texture copies all aspects. Dynamic offsets stand in the order of the bindings' numbers,
/// and a dispatch has a count of workgroups in each dimension (WebGPU, "Compute Passes"). Vertex buffers
/// are set by slot, and a draw goes over a range of vertices or indexes, and of instances (WebGPU,
/// "GPURenderCommandsMixin"). A bind group or a vertex buffer that is none unsets what is set there. What a
/// scissor rectangle has is in texels (WebGPU, "Rasterization state"); the blend constant and the stencil
/// reference are not kept, since no rule hangs on them. Queries are named by their indexes in the query set of the render pass, or, to
/// be resolved, from the first on (WebGPU, "Queries").
#[derive(Drop)]
pub enum CommandOf<R> {
    BeginComputePass,
    BeginRenderPass {
        begin: RenderBeginOf<R>,
    },
    CopyBufferToBuffer {
        source: R,
        source_offset: u64,
        target: R,
        target_offset: u64,
        size: u64,
    },
    CopyBufferToTexture {
        buffer: R,
        layout: DataLayout,
        texture: R,
        spot: TextureSpot,
        size: [u32; 3],
    },
    CopyTextureToBuffer {
        buffer: R,
        layout: DataLayout,
        texture: R,
        spot: TextureSpot,
        size: [u32; 3],
    },
    CopyTextureToTexture {
        source: R,
        source_mip: u32,
        source_origin: [u32; 3],
        target: R,
        target_mip: u32,
        target_origin: [u32; 3],
        size: [u32; 3],
    },
    ClearBuffer {
        buffer: R,
        offset: u64,
        size: Option<u64>,
    },
    ResolveQuerySet {
        queries: R,
        first: u32,
        count: u32,
        buffer: R,
        offset: u64,
    },
    PushDebugGroup,
    PopDebugGroup,
    InsertDebugMarker,
    End,
    SetPipeline {
        pipeline: R,
    },
    SetBindGroup {
        index: u32,
        group: Option<R>,
        offsets: Shared<Items<u32>>,
    },
    Dispatch {
        x: u32,
        y: u32,
        z: u32,
    },
    DispatchIndirect {
        buffer: R,
        offset: u64,
    },
    SetVertexBuffer {
        slot: u32,
        buffer: Option<R>,
        offset: u64,
        size: Option<u64>,
    },
    SetIndexBuffer {
        buffer: R,
        format: IndexFormat,
        offset: u64,
        size: Option<u64>,
    },
    Draw {
        vertices: u32,
        instances: u32,
        first_vertex: u32,
        first_instance: u32,
    },
    DrawIndexed {
        indices: u32,
        instances: u32,
        first_index: u32,
        first_instance: u32,
    },
    DrawIndirect {
        buffer: R,
        offset: u64,
    },
    DrawIndexedIndirect {
        buffer: R,
        offset: u64,
    },
    BeginOcclusionQuery {
        index: u32,
    },
    EndOcclusionQuery,
    ExecuteBundles {
        bundles: Items<R>,
    },
    SetViewport {
        viewport: Viewport,
    },
    SetScissorRect {
        x: u32,
        y: u32,
        width: u32,
        height: u32,
    },
    SetBlendConstant,
    SetStencilReference,
}

/// A command as its caller holds its objects.
pub type Command = CommandOf<Handle>;

/// A bind group as it is set, with its dynamic offsets.
#[derive(Drop)]
pub struct BoundGroup {
    pub group: Handle,
    pub offsets: Shared<Items<u32>>,
}

/// Whether what is asked of what a command stands on is met by a place of this kind.
fn stands(wanted: Wanted, place: CommandPlace) -> bool
    ensures { result ≡ stands wanted place }
{
    match (wanted, place) {
        (Wanted::Encoder, CommandPlace::Encoder) => true,
        (Wanted::ComputePass, CommandPlace::ComputePass) => true,
        (Wanted::RenderPass, CommandPlace::RenderPass) => true,
        (Wanted::Pass, CommandPlace::ComputePass | CommandPlace::RenderPass) => true,
        (Wanted::Binding, CommandPlace::ComputePass) => true,
        (Wanted::Binding | Wanted::Drawing, CommandPlace::RenderPass | CommandPlace::Bundle) =>
            true,
        (Wanted::Recording, _) => true,
        _ => false,
    }
}

impl<R> CommandOf<R> {
    /// Whether the command may stand on a place of this kind.
    pub fn fits(&self, place: CommandPlace) -> bool
        ensures { result ≡ fits self.now place }
    {
        stands(self.place_wanted(), place)
    }

    /// What the command asks of what it stands on, where that has a name.
    pub fn place_wanted(&self) -> Wanted
        ensures { result ≡ place_wanted self.now }
    {
        match self {
            CommandOf::PushDebugGroup | CommandOf::PopDebugGroup | CommandOf::InsertDebugMarker =>
                Wanted::Recording,
            CommandOf::End => Wanted::Pass,
            CommandOf::SetPipeline { .. } | CommandOf::SetBindGroup { .. } => Wanted::Binding,
            CommandOf::Dispatch { .. } | CommandOf::DispatchIndirect { .. } => Wanted::ComputePass,
            CommandOf::SetVertexBuffer { .. }
            | CommandOf::SetIndexBuffer { .. }
            | CommandOf::Draw { .. }
            | CommandOf::DrawIndexed { .. }
            | CommandOf::DrawIndirect { .. }
            | CommandOf::DrawIndexedIndirect { .. } => Wanted::Drawing,
            CommandOf::BeginOcclusionQuery { .. }
            | CommandOf::EndOcclusionQuery
            | CommandOf::ExecuteBundles { .. }
            | CommandOf::SetViewport { .. }
            | CommandOf::SetScissorRect { .. }
            | CommandOf::SetBlendConstant
            | CommandOf::SetStencilReference => Wanted::RenderPass,
            _ => Wanted::Encoder,
        }
    }

    /// The kind of the pass that the command begins, if it begins one.
    pub fn kind_begun(&self) -> Option<Kind>
        ensures { result ≡ kind_begun self.now }
    {
        match self.bracket() {
            Bracket::BeginComputePass => Some(Kind::ComputePass),
            Bracket::BeginRenderPass => Some(Kind::RenderPass),
            Bracket::EndPass | Bracket::PushGroup | Bracket::PopGroup | Bracket::Neither => None,
        }
    }

    /// What the command opens or closes, if it does.
    pub fn bracket(&self) -> Bracket
        ensures { result ≡ bracket self.now }
    {
        match self {
            CommandOf::BeginComputePass => Bracket::BeginComputePass,
            CommandOf::BeginRenderPass { .. } => Bracket::BeginRenderPass,
            CommandOf::PushDebugGroup => Bracket::PushGroup,
            CommandOf::PopDebugGroup => Bracket::PopGroup,
            CommandOf::End => Bracket::EndPass,
            _ => Bracket::Neither,
        }
    }

    /// Whether the command begins a pass.
    pub fn is_begin(&self) -> bool
        ensures { result ≡ is_begin self.now }
    {
        match self.bracket() {
            Bracket::BeginComputePass | Bracket::BeginRenderPass => true,
            Bracket::EndPass | Bracket::PushGroup | Bracket::PopGroup | Bracket::Neither => false,
        }
    }

    /// Whether the command ends a pass.
    pub fn is_end(&self) -> bool
        ensures { result ≡ is_end self.now }
    {
        match self.bracket() {
            Bracket::EndPass => true,
            Bracket::BeginComputePass
            | Bracket::BeginRenderPass
            | Bracket::PushGroup
            | Bracket::PopGroup
            | Bracket::Neither => false,
        }
    }

    /// What the render pass begins with that the command begins, if it begins one.
    pub fn render_begun(&self) -> Option<&RenderBeginOf<R>>
        ensures { option_copied result ≡ render_begun self.now }
    {
        match self {
            CommandOf::BeginRenderPass { begin } => Some(begin),
            _ => None,
        }
    }

    /// What the first object answers, of those that the command names, that has an answer.
    pub fn first<E: Drop, A: Ask<R, E>>(&self, asked: &A) -> Option<E>
        ensures { result ≡ first_of (A.asks asked.now) (named self.now) }
    {
        match self {
            CommandOf::BeginRenderPass { begin } => begin.first(asked),
            CommandOf::CopyBufferToBuffer { source, target, .. } => {
                refs::two(asked, (source, Wanted::Buffer), (target, Wanted::Buffer))
            }
            CommandOf::CopyBufferToTexture {
                buffer,
                texture,
                ..
            } => refs::two(asked, (buffer, Wanted::Buffer), (texture, Wanted::Texture)),
            CommandOf::CopyTextureToBuffer {
                buffer,
                texture,
                ..
            } => refs::two(asked, (buffer, Wanted::Buffer), (texture, Wanted::Texture)),
            CommandOf::CopyTextureToTexture { source, target, .. } => {
                refs::two(asked, (source, Wanted::Texture), (target, Wanted::Texture))
            }
            CommandOf::ClearBuffer { buffer, .. }
            | CommandOf::DispatchIndirect { buffer, .. }
            | CommandOf::SetIndexBuffer { buffer, .. }
            | CommandOf::DrawIndirect { buffer, .. }
            | CommandOf::DrawIndexedIndirect { buffer, .. } => asked.ask(buffer, Wanted::Buffer),
            CommandOf::SetVertexBuffer { buffer, .. } => refs::maybe(asked, buffer, Wanted::Buffer),
            CommandOf::ResolveQuerySet {
                queries,
                buffer,
                ..
            } => refs::two(asked, (queries, Wanted::Queries), (buffer, Wanted::Buffer)),
            CommandOf::ExecuteBundles { bundles } => {
                refs::each(asked, bundles.as_slice(), Wanted::Bundle)
            }
            CommandOf::SetPipeline { pipeline } => asked.ask(pipeline, Wanted::Pipeline),
            CommandOf::SetBindGroup { group, .. } => refs::maybe(asked, group, Wanted::Group),
            _ => None,
        }
    }

    /// Whether a test holds of some object that the command names.
    #[tactic(auto, using(crate::proofs::RefLemmas::any_first))]
    pub fn any<T: Test<R>>(&self, test: &T) -> bool
        ensures { result ≡ list_any (T.holds test.now) (named self.now) }
    {
        self.first(&Tested { test }).is_some()
    }

    /// Gathers what there is of the objects that the command names, in order.
    #[tactic(auto, using(wg_trace::proofs::Beginnings::begins_self))]
    pub fn gather<T, G: Gather<R, T>>(&self, gather: &G, found: &mut Vec<T>) -> Result<(), NoMemory>
        ensures gathered { OnOk result (found.new.items ≡ found.old.items ++ flat_map (G.gathers gather.now) (named self.now)) }
        ensures begins { BeginsWith found.new.items found.old.items }
    {
        match self {
            CommandOf::BeginRenderPass { begin } => begin.gather(gather, found),
            CommandOf::CopyBufferToBuffer { source, target, .. } => {
                refs::gather_two(
                    gather,
                    found,
                    (source, Wanted::Buffer),
                    (target, Wanted::Buffer),
                )
            }
            CommandOf::CopyBufferToTexture {
                buffer,
                texture,
                ..
            } => refs::gather_two(
                gather,
                found,
                (buffer, Wanted::Buffer),
                (texture, Wanted::Texture),
            ),
            CommandOf::CopyTextureToBuffer {
                buffer,
                texture,
                ..
            } => refs::gather_two(
                gather,
                found,
                (buffer, Wanted::Buffer),
                (texture, Wanted::Texture),
            ),
            CommandOf::CopyTextureToTexture { source, target, .. } => {
                refs::gather_two(
                    gather,
                    found,
                    (source, Wanted::Texture),
                    (target, Wanted::Texture),
                )
            }
            CommandOf::ClearBuffer { buffer, .. }
            | CommandOf::DispatchIndirect { buffer, .. }
            | CommandOf::SetIndexBuffer { buffer, .. }
            | CommandOf::DrawIndirect { buffer, .. }
            | CommandOf::DrawIndexedIndirect { buffer, .. } => {
                refs::gather_one(gather, found, buffer, Wanted::Buffer)
            }
            CommandOf::SetVertexBuffer { buffer, .. } => {
                refs::gather_maybe(gather, found, buffer, Wanted::Buffer)
            }
            CommandOf::ResolveQuerySet {
                queries,
                buffer,
                ..
            } => refs::gather_two(
                gather,
                found,
                (queries, Wanted::Queries),
                (buffer, Wanted::Buffer),
            ),
            CommandOf::ExecuteBundles { bundles } => {
                refs::gather_each(gather, found, bundles.as_slice(), Wanted::Bundle)
            }
            CommandOf::SetPipeline { pipeline } => {
                refs::gather_one(gather, found, pipeline, Wanted::Pipeline)
            }
            CommandOf::SetBindGroup { group, .. } => {
                refs::gather_maybe(gather, found, group, Wanted::Group)
            }
            _ => Ok(()),
        }
    }

    /// The command with other objects in place of those that it names. Dynamic offsets are shared.
    pub fn map<S: Drop, F: Find<R, S>>(
        &self,
        alloc: Global,
        find: &F,
    ) -> Result<CommandOf<S>, NoMemory>
        ensures { IfOk result (λ command. command ≡ map_refs (F.finds find.now) self.now) }
    {
        match self {
            CommandOf::BeginComputePass => Ok(CommandOf::BeginComputePass),
            CommandOf::BeginRenderPass { begin } => Ok(CommandOf::BeginRenderPass {
                begin: begin.map(alloc, find)?,
            }),
            CommandOf::CopyBufferToBuffer {
                source,
                source_offset,
                target,
                target_offset,
                size,
            } => {
                let (source, target) = refs::find_two(find, source, target)?;
                Ok(CommandOf::CopyBufferToBuffer {
                    source,
                    source_offset: *source_offset,
                    target,
                    target_offset: *target_offset,
                    size: *size,
                })
            }
            CommandOf::CopyBufferToTexture {
                buffer,
                layout,
                texture,
                spot,
                size,
            } => {
                let (buffer, texture) = refs::find_two(find, buffer, texture)?;
                Ok(CommandOf::CopyBufferToTexture {
                    buffer,
                    layout: *layout,
                    texture,
                    spot: *spot,
                    size: *size,
                })
            }
            CommandOf::CopyTextureToBuffer {
                buffer,
                layout,
                texture,
                spot,
                size,
            } => {
                let (buffer, texture) = refs::find_two(find, buffer, texture)?;
                Ok(CommandOf::CopyTextureToBuffer {
                    buffer,
                    layout: *layout,
                    texture,
                    spot: *spot,
                    size: *size,
                })
            }
            CommandOf::CopyTextureToTexture {
                source,
                source_mip,
                source_origin,
                target,
                target_mip,
                target_origin,
                size,
            } => {
                let (source, target) = refs::find_two(find, source, target)?;
                Ok(CommandOf::CopyTextureToTexture {
                    source,
                    source_mip: *source_mip,
                    source_origin: *source_origin,
                    target,
                    target_mip: *target_mip,
                    target_origin: *target_origin,
                    size: *size,
                })
            }
            CommandOf::ClearBuffer {
                buffer,
                offset,
                size,
            } => Ok(CommandOf::ClearBuffer {
                buffer: find.find(buffer)?,
                offset: *offset,
                size: *size,
            }),
            CommandOf::ResolveQuerySet {
                queries,
                first,
                count,
                buffer,
                offset,
            } => {
                let (queries, buffer) = refs::find_two(find, queries, buffer)?;
                Ok(CommandOf::ResolveQuerySet {
                    queries,
                    first: *first,
                    count: *count,
                    buffer,
                    offset: *offset,
                })
            }
            CommandOf::PushDebugGroup => Ok(CommandOf::PushDebugGroup),
            CommandOf::PopDebugGroup => Ok(CommandOf::PopDebugGroup),
            CommandOf::InsertDebugMarker => Ok(CommandOf::InsertDebugMarker),
            CommandOf::End => Ok(CommandOf::End),
            CommandOf::SetPipeline { pipeline } => Ok(CommandOf::SetPipeline {
                pipeline: find.find(pipeline)?,
            }),
            CommandOf::SetBindGroup {
                index,
                group,
                offsets,
            } => Ok(CommandOf::SetBindGroup {
                index: *index,
                group: refs::map_maybe(find, group)?,
                offsets: offsets.share()?,
            }),
            CommandOf::Dispatch { x, y, z } => Ok(CommandOf::Dispatch {
                x: *x,
                y: *y,
                z: *z,
            }),
            CommandOf::DispatchIndirect { buffer, offset } => Ok(CommandOf::DispatchIndirect {
                buffer: find.find(buffer)?,
                offset: *offset,
            }),
            CommandOf::SetVertexBuffer {
                slot,
                buffer,
                offset,
                size,
            } => Ok(CommandOf::SetVertexBuffer {
                slot: *slot,
                buffer: refs::map_maybe(find, buffer)?,
                offset: *offset,
                size: *size,
            }),
            CommandOf::SetIndexBuffer {
                buffer,
                format,
                offset,
                size,
            } => Ok(CommandOf::SetIndexBuffer {
                buffer: find.find(buffer)?,
                format: *format,
                offset: *offset,
                size: *size,
            }),
            CommandOf::Draw {
                vertices,
                instances,
                first_vertex,
                first_instance,
            } => Ok(CommandOf::Draw {
                vertices: *vertices,
                instances: *instances,
                first_vertex: *first_vertex,
                first_instance: *first_instance,
            }),
            CommandOf::DrawIndexed {
                indices,
                instances,
                first_index,
                first_instance,
            } => Ok(CommandOf::DrawIndexed {
                indices: *indices,
                instances: *instances,
                first_index: *first_index,
                first_instance: *first_instance,
            }),
            CommandOf::DrawIndirect { buffer, offset } => Ok(CommandOf::DrawIndirect {
                buffer: find.find(buffer)?,
                offset: *offset,
            }),
            CommandOf::DrawIndexedIndirect { buffer, offset } => Ok(
                CommandOf::DrawIndexedIndirect {
                    buffer: find.find(buffer)?,
                    offset: *offset,
                },
            ),
            CommandOf::BeginOcclusionQuery { index } => {
                Ok(CommandOf::BeginOcclusionQuery { index: *index })
            }
            CommandOf::EndOcclusionQuery => Ok(CommandOf::EndOcclusionQuery),
            CommandOf::ExecuteBundles { bundles } => Ok(CommandOf::ExecuteBundles {
                bundles: refs::map_items(alloc, find, bundles.as_slice())?,
            }),
            CommandOf::SetViewport { viewport } => Ok(CommandOf::SetViewport {
                viewport: *viewport,
            }),
            CommandOf::SetScissorRect {
                x,
                y,
                width,
                height,
            } => Ok(CommandOf::SetScissorRect {
                x: *x,
                y: *y,
                width: *width,
                height: *height,
            }),
            CommandOf::SetBlendConstant => Ok(CommandOf::SetBlendConstant),
            CommandOf::SetStencilReference => Ok(CommandOf::SetStencilReference),
        }
    }
}
