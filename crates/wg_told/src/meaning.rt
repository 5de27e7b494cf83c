//! What flat structs stand for.
ghost use Rattle.std.specs.Prelude.{◌≡◌, Option, IfOk};
ghost use Rattle.wg_told.specs.Flats.{every, extent_of, origin_of, buffer_of, texture_of, view_of, buffer_binding_of, texture_binding_of, storage_binding_of, binding_of, layout_entry_of, used_of, compute_iface_of, render_iface_of, resource_of, group_entry_of, attribute_of, format_of, attached_of, color_of, depth_attached_of, depth_target_of, viewport_of, layout_of, spot_of, on_of};

use crate::flats::{
    FlatAttribute, FlatBinding, FlatBuffer, FlatColor, FlatDepth, FlatExtent, FlatGroupEntry,
    FlatIfaceEntry, FlatLayoutEntry, FlatOrigin, FlatSpot, FlatTexelLayout, FlatTexture, FlatView,
    FlatViewport,
};
use crate::tables::{
    ASPECTS, BUFFER_BINDINGS, FORMATS, LEFT_OUT, LOAD_OPS, RENDER_STAGES, SAMPLE_TYPES,
    SAMPLER_KINDS, STORAGE_ACCESSES, STORE_OPS, TEXTURE_DIMS, VERTEX_FORMATS, VIEW_DIMS, flag_of,
    maybe_nth, narrow_of, nth, wide_of,
};
use std::alloc::Global;
use wg_types::NoMemory;
use wg_types::bindings::{BindingKind, GroupEntryOf, IfaceEntry, LayoutEntry, ResourceOf, Stage};
use wg_types::commands::On;
use wg_types::formats::Format;
use wg_types::handles::BufferInfo;
use wg_types::items::Items;
use wg_types::render::{ColorTargetOf, DepthTargetOf, Viewport};
use wg_types::textures::{DataLayout, TextureInfo, TextureSpot, ViewAsked};
use wg_types::vertex::VertexAttribute;

/// A reading of flat values.
pub trait Reads<F, T> {
    ghost reads: { Self → F → Option T };

    /// What a flat value stands for, if it stands for something.
    fn read(&self, flat: &F) -> Option<T>
        ensures { result ≡ reads self.now flat.now };
}

/// What each of a list stands for, if each stands for something.
#[tactic(auto, using(crate::proofs::Lists::joined_next))]
pub fn every<F, T: Drop, M: Reads<F, T>>(
    alloc: Global,
    reading: &M,
    flats: &[F],
) -> Result<Option<Items<T>>, NoMemory>
    ensures { IfOk result (λ meant. meant ≡ every (M.reads reading.now) flats.now) }
{
    let mut found = Items::new(alloc);
    for flat in flats {
        match reading.read(flat) {
            Some(one) => found.push(one)?,
            None => return Ok(None),
        }
    }
    Ok(Some(found))
}

pub fn extent_of(extent: FlatExtent) -> [u32; 3]
    ensures { result ≡ extent_of extent }
{
    [extent.width, extent.height, extent.depth]
}

pub fn origin_of(origin: FlatOrigin) -> [u32; 3]
    ensures { result ≡ origin_of origin }
{
    [origin.x, origin.y, origin.z]
}

pub fn buffer_of(buffer: &FlatBuffer) -> Option<BufferInfo>
    ensures { result ≡ buffer_of buffer.now }
{
    let mapped = flag_of(buffer.mapped)?;
    Some(BufferInfo {
        size: buffer.size,
        usage: buffer.usage,
        mapped,
    })
}

pub fn texture_of(texture: &FlatTexture) -> Option<TextureInfo>
    ensures { result ≡ texture_of texture.now }
{
    let format = nth(&FORMATS, texture.format)?;
    let dim = nth(&TEXTURE_DIMS, texture.dim)?;
    Some(TextureInfo {
        size: extent_of(texture.size),
        usage: texture.usage,
        format,
        dim,
        mips: texture.mips,
        samples: texture.samples,
    })
}

pub fn view_of(view: &FlatView) -> Option<ViewAsked>
    ensures { result ≡ view_of view.now }
{
    let dim = maybe_nth(&VIEW_DIMS, view.dim)?;
    let aspect = nth(&ASPECTS, view.aspect)?;
    let mips = narrow_of(view.mips)?;
    let layers = narrow_of(view.layers)?;
    Some(ViewAsked {
        dim,
        aspect,
        base_mip: view.base_mip,
        mips,
        base_layer: view.base_layer,
        layers,
    })
}

fn buffer_binding_of(flat: FlatBinding) -> Option<BindingKind>
    ensures { result ≡ buffer_binding_of flat }
{
    let binding = nth(&BUFFER_BINDINGS, flat.kind)?;
    let dynamic = flag_of(flat.dynamic)?;
    Some(BindingKind::Buffer {
        binding,
        dynamic,
        min_size: flat.min_size,
    })
}

fn texture_binding_of(flat: FlatBinding) -> Option<BindingKind>
    ensures { result ≡ texture_binding_of flat }
{
    let sample = nth(&SAMPLE_TYPES, flat.sample)?;
    let dim = nth(&VIEW_DIMS, flat.dim)?;
    let multi = flag_of(flat.multi)?;
    Some(BindingKind::Texture { sample, dim, multi })
}

fn storage_binding_of(flat: FlatBinding) -> Option<BindingKind>
    ensures { result ≡ storage_binding_of flat }
{
    let access = nth(&STORAGE_ACCESSES, flat.access)?;
    let format = nth(&FORMATS, flat.format)?;
    let dim = nth(&VIEW_DIMS, flat.dim)?;
    Some(BindingKind::StorageTexture {
        access,
        format,
        dim,
    })
}

pub fn binding_of(flat: FlatBinding) -> Option<BindingKind>
    ensures { result ≡ binding_of flat }
{
    if flat.kind == 4 {
        let sampler_type = nth(&SAMPLER_KINDS, flat.sampler)?;
        return Some(BindingKind::Sampler { sampler_type });
    }
    if flat.kind == 5 {
        return texture_binding_of(flat);
    }
    if flat.kind == 6 {
        return storage_binding_of(flat);
    }
    buffer_binding_of(flat)
}

/// Reads entries of bind group layouts.
#[derive(Drop)]
pub struct LayoutEntries;

impl Reads<FlatLayoutEntry, LayoutEntry> for LayoutEntries {
    ghost reads = { λ _. layout_entry_of };

    fn read(&self, flat: &FlatLayoutEntry) -> Option<LayoutEntry> {
        let kind = binding_of(flat.holds)?;
        Some(LayoutEntry {
            binding: flat.binding,
            visibility: flat.visibility,
            kind,
        })
    }
}

fn used_of(stage: Stage, flat: FlatIfaceEntry) -> Option<IfaceEntry>
    ensures { result ≡ used_of stage flat }
{
    let kind = binding_of(flat.holds)?;
    Some(IfaceEntry {
        group: flat.group,
        binding: flat.binding,
        stage,
        kind,
    })
}

/// Reads what the shader of a compute pipeline uses. The stage is not looked at.
#[derive(Drop)]
pub struct ComputeUses;

impl Reads<FlatIfaceEntry, IfaceEntry> for ComputeUses {
    ghost reads = { λ _. compute_iface_of };

    fn read(&self, flat: &FlatIfaceEntry) -> Option<IfaceEntry> {
        used_of(Stage::Compute, *flat)
    }
}

/// Reads what the shaders of a render pipeline use.
#[derive(Drop)]
pub struct RenderUses;

impl Reads<FlatIfaceEntry, IfaceEntry> for RenderUses {
    ghost reads = { λ _. render_iface_of };

    fn read(&self, flat: &FlatIfaceEntry) -> Option<IfaceEntry> {
        let stage = nth(&RENDER_STAGES, flat.stage)?;
        used_of(stage, *flat)
    }
}

fn resource_of(flat: &FlatGroupEntry) -> Option<ResourceOf<u64>>
    ensures { result ≡ resource_of flat.now }
{
    match flat.bound {
        1 => Some(ResourceOf::Buffer {
            buffer: flat.object,
            offset: flat.offset,
            size: wide_of(flat.size),
        }),
        2 => Some(ResourceOf::View { view: flat.object }),
        3 => Some(ResourceOf::Sampler {
            sampler: flat.object,
        }),
        _ => None,
    }
}

/// Reads entries of bind groups.
#[derive(Drop)]
pub struct GroupEntries;

impl Reads<FlatGroupEntry, GroupEntryOf<u64>> for GroupEntries {
    ghost reads = { λ _. group_entry_of };

    fn read(&self, flat: &FlatGroupEntry) -> Option<GroupEntryOf<u64>> {
        let resource = resource_of(flat)?;
        Some(GroupEntryOf {
            binding: flat.binding,
            resource,
        })
    }
}

pub fn attribute_of(flat: &FlatAttribute) -> Option<VertexAttribute>
    ensures { result ≡ attribute_of flat.now }
{
    let format = nth(&VERTEX_FORMATS, flat.format)?;
    Some(VertexAttribute {
        format,
        offset: flat.offset,
        location: flat.location,
    })
}

/// Reads formats that may be left out.
#[derive(Drop)]
pub struct Formats;

impl Reads<u32, Option<Format>> for Formats {
    ghost reads = { λ _. format_of };

    fn read(&self, flat: &u32) -> Option<Option<Format>> {
        maybe_nth(&FORMATS, *flat)
    }
}

fn attached_of(flat: &FlatColor) -> Option<Option<ColorTargetOf<u64>>>
    ensures { result ≡ attached_of flat.now }
{
    let depth_slice = narrow_of(flat.depth_slice)?;
    let load = nth(&LOAD_OPS, flat.load)?;
    let store = nth(&STORE_OPS, flat.store)?;
    Some(Some(ColorTargetOf {
        view: flat.view,
        depth_slice,
        resolve: wide_of(flat.resolve),
        load,
        store,
    }))
}

/// Reads color attachments that may be left out.
#[derive(Drop)]
pub struct Colors;

impl Reads<FlatColor, Option<ColorTargetOf<u64>>> for Colors {
    ghost reads = { λ _. color_of };

    fn read(&self, flat: &FlatColor) -> Option<Option<ColorTargetOf<u64>>> {
        if flat.view == LEFT_OUT {
            return Some(None);
        }
        attached_of(flat)
    }
}

fn depth_attached_of(flat: &FlatDepth) -> Option<Option<DepthTargetOf<u64>>>
    ensures { result ≡ depth_attached_of flat.now }
{
    let depth_load = maybe_nth(&LOAD_OPS, flat.depth_load)?;
    let depth_store = maybe_nth(&STORE_OPS, flat.depth_store)?;
    let depth_read_only = flag_of(flat.depth_read_only)?;
    let stencil_load = maybe_nth(&LOAD_OPS, flat.stencil_load)?;
    let stencil_store = maybe_nth(&STORE_OPS, flat.stencil_store)?;
    let stencil_read_only = flag_of(flat.stencil_read_only)?;
    Some(Some(DepthTargetOf {
        view: flat.view,
        depth_load,
        depth_clear: wide_of(flat.depth_clear),
        depth_store,
        depth_read_only,
        stencil_load,
        stencil_store,
        stencil_read_only,
    }))
}

/// An attachment of depth and stencil that may be left out.
pub fn depth_target_of(flat: &FlatDepth) -> Option<Option<DepthTargetOf<u64>>>
    ensures { result ≡ depth_target_of flat.now }
{
    if flat.view == LEFT_OUT {
        return Some(None);
    }
    depth_attached_of(flat)
}

pub fn viewport_of(flat: &FlatViewport) -> Option<Viewport>
    ensures { result ≡ viewport_of flat.now }
{
    let left = flag_of(flat.left)?;
    let above = flag_of(flat.above)?;
    Some(Viewport {
        x: flat.x,
        left,
        y: flat.y,
        above,
        width: flat.width,
        height: flat.height,
        min_depth: flat.min_depth,
        max_depth: flat.max_depth,
    })
}

pub fn layout_of(flat: &FlatTexelLayout) -> Option<DataLayout>
    ensures { result ≡ layout_of flat.now }
{
    let bytes_per_row = narrow_of(flat.bytes_per_row)?;
    let rows_per_image = narrow_of(flat.rows_per_image)?;
    Some(DataLayout {
        offset: flat.offset,
        bytes_per_row,
        rows_per_image,
    })
}

pub fn spot_of(flat: &FlatSpot) -> Option<TextureSpot>
    ensures { result ≡ spot_of flat.now }
{
    let aspect = nth(&ASPECTS, flat.aspect)?;
    Some(TextureSpot {
        mip: flat.mip,
        origin: origin_of(flat.origin),
        aspect,
    })
}

/// On what a command stands: the encoder itself, or a pass.
pub fn on_of(pass: u32) -> On
    ensures { result ≡ on_of pass }
{
    if pass == u32::MAX {
        return On::Encoder;
    }
    On::Pass(pass)
}
