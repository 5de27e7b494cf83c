//! What is known of the objects that calls make of others.
ghost use Rattle.std.specs.Prelude.{◌≡◌, [], false, Option, IfOk, map, option_copied, option_and_then};
ghost use Rattle.wg_types.specs.declared.handles.Info.{Info as InfoOf};
ghost use Rattle.wg_model.specs.Making.{known_buffer, known_texture, known_view, known_sampler, known_group_layout, known_pipeline_layout, bound_resource, bound_entry, view_made, given_layouts, pipeline_layout_made, group_made, layout_made, compute_made, render_made, group_layout_made, group_layout_got};
ghost use Rattle.std.specs.Option.{option_map_or};
ghost use Rattle.wg_model.specs.Automatic.{automatic_layouts, entries_at};
ghost use Rattle.wg_model.specs.Bound.{is_automatic};

use std::alloc::Global;
use wg_auto::automatic_layouts;
use wg_formats::{no_buffer, no_texture, no_view, view_info};
use wg_layouts::{is_automatic, known_layouts};
use wg_types::NoMemory;
use wg_types::bindings::{
    BoundEntry, BoundResource, GroupEntryOf, IfaceEntry, LayoutEntry, ResourceOf, SamplerKind,
};
use wg_types::groups::{
    ComputeInfo, GroupInfo, GroupLayoutInfo, Interface, PipelineLayoutInfo, RenderInfo,
};
use wg_types::handles::{BufferInfo, Info, ObjRef};
use wg_types::items::Items;
use wg_types::refs::{Find, map_maybe};
use wg_types::render::RenderDesc;
use wg_types::shared::Shared;
use wg_types::textures::{TextureInfo, ViewDesc, ViewInfo};

/// What is known of each object that a call names.
pub trait Known<R> {
    ghost knows: { Self → R → Option InfoOf };

    /// What is known of an object, if something is.
    fn info<'a>(&'a self, object: &'a R) -> Option<&'a Info>
        ensures { option_copied result ≡ knows self.now object.now };
}

/// What is known of a buffer; nothing has usage or bytes where an object is none.
fn known_buffer(known: Option<&Info>) -> BufferInfo
    ensures { result ≡ known_buffer (option_copied known.entry) }
{
    match known {
        Some(Info::Buffer(info)) => *info,
        _ => no_buffer(),
    }
}

/// What is known of a texture; nothing has usage or texels where an object is none.
fn known_texture(known: Option<&Info>) -> TextureInfo
    ensures { result ≡ known_texture (option_copied known.entry) }
{
    match known {
        Some(Info::Texture(info)) => *info,
        _ => no_texture(),
    }
}

/// What is known of a view; one of no texture where an object is none.
fn known_view(known: Option<&Info>) -> ViewInfo
    ensures { result ≡ known_view (option_copied known.entry) }
{
    match known {
        Some(Info::View(info)) => *info,
        _ => no_view(),
    }
}

/// The kind of a sampler; filtering where an object is none.
fn known_sampler(known: Option<&Info>) -> SamplerKind
    ensures { result ≡ known_sampler (option_copied known.entry) }
{
    match known {
        Some(Info::Sampler(info)) => *info,
        _ => SamplerKind::Filtering,
    }
}

/// What is known of a new bind group layout with these entries, which any pipeline may use (WebGPU, "Bind
/// Group Layout Creation").
pub fn group_layout_made(entries: Shared<Items<LayoutEntry>>) -> GroupLayoutInfo
    ensures { result ≡ group_layout_made entries }
{
    GroupLayoutInfo {
        entries,
        exclusive: None,
        pipeline: None,
    }
}

/// A list of no entries.
fn no_entries(alloc: Global) -> Result<Shared<Items<LayoutEntry>>, NoMemory>
    ensures { IfOk result (λ entries. entries ≡ []) }
{
    Shared::new(alloc, Items::new(alloc))
}

/// What is known of a bind group layout, which is shared; one with no entry where an object is none.
fn known_group_layout(
    alloc: Global,
    known: Option<&Info>,
) -> Result<Shared<GroupLayoutInfo>, NoMemory>
    ensures { IfOk result (λ info. info ≡ known_group_layout (option_copied known.entry)) }
{
    match known {
        Some(Info::GroupLayout(info)) => info.share(),
        _ => Shared::new(alloc, group_layout_made(no_entries(alloc)?)),
    }
}

/// What is known of a pipeline layout, which is shared; one with no group where an object is none.
fn known_pipeline_layout(
    alloc: Global,
    known: Option<&Info>,
) -> Result<Shared<PipelineLayoutInfo>, NoMemory>
    ensures { IfOk result (λ info. info ≡ known_pipeline_layout (option_copied known.entry)) }
{
    match known {
        Some(Info::PipelineLayout(info)) => info.share(),
        _ => Shared::new(
            alloc,
            PipelineLayoutInfo {
                layouts: Items::new(alloc),
                layouts_info: Items::new(alloc),
            },
        ),
    }
}

/// What is known of a bind group layout, or of null, which has no entry.
fn known_layout<R, K: Known<R>>(
    alloc: Global,
    known: &K,
    layout: &Option<R>,
) -> Result<Shared<GroupLayoutInfo>, NoMemory>
    ensures { IfOk result (λ info. info ≡ known_group_layout (option_and_then (K.knows known.now) layout.now)) }
{
    match layout {
        Some(layout) => known_group_layout(alloc, known.info(layout)),
        None => known_group_layout(alloc, None),
    }
}

/// What is known of the bind group layouts of a list.
fn known_group_layouts<R, K: Known<R>>(
    alloc: Global,
    known: &K,
    layouts: &[Option<R>],
) -> Result<Items<Shared<GroupLayoutInfo>>, NoMemory>
    ensures { IfOk result (λ found. found ≡ map (λ layout. known_group_layout (option_and_then (K.knows known.now) layout)) layouts.now) }
{
    let mut found = Items::new(alloc);
    for layout in layouts {
        found.push(known_layout(alloc, known, layout)?)?;
    }
    Ok(found)
}

/// The bind group layouts of a list that are not null.
fn given_layouts<R, F: Find<R, ObjRef>>(
    alloc: Global,
    find: &F,
    layouts: &[Option<R>],
) -> Result<Items<ObjRef>, NoMemory>
    ensures { IfOk result (λ found. found ≡ given_layouts (F.finds find.now) layouts.now) }
{
    let mut found = Items::new(alloc);
    for layout in layouts {
        if let Some(layout) = layout {
            found.push(find.find(layout)?)?;
        }
    }
    Ok(found)
}

/// What an entry of a bind group binds: of a buffer what remains from the offset on where no size is
/// given.
fn bound_resource<R, F: Find<R, ObjRef>, K: Known<R>>(
    find: &F,
    known: &K,
    resource: &ResourceOf<R>,
) -> Result<BoundResource, NoMemory>
    ensures { IfOk result (λ bound. bound ≡ bound_resource (F.finds find.now) (K.knows known.now) resource.now) }
{
    match resource {
        ResourceOf::Buffer {
            buffer,
            offset,
            size,
        } => {
            let buffer_info = known_buffer(known.info(buffer));
            Ok(BoundResource::Buffer {
                buffer: find.find(buffer)?,
                buffer_info,
                offset: *offset,
                size: size.unwrap_or(buffer_info.size.saturating_sub(*offset)),
            })
        }
        ResourceOf::View { view } => Ok(BoundResource::View {
            view: find.find(view)?,
            view_info: known_view(known.info(view)),
        }),
        ResourceOf::Sampler { sampler } => Ok(BoundResource::Sampler {
            sampler: find.find(sampler)?,
            sampler_info: known_sampler(known.info(sampler)),
        }),
    }
}

/// What the entries of a bind group bind.
fn bound_entries<R, F: Find<R, ObjRef>, K: Known<R>>(
    alloc: Global,
    find: &F,
    known: &K,
    entries: &[GroupEntryOf<R>],
) -> Result<Items<BoundEntry>, NoMemory>
    ensures { IfOk result (λ found. found ≡ map (bound_entry (F.finds find.now) (K.knows known.now)) entries.now) }
{
    let mut found = Items::new(alloc);
    for entry in entries {
        let resource = bound_resource(find, known, &entry.resource)?;
        found.push(BoundEntry {
            binding: entry.binding,
            resource,
        })?;
    }
    Ok(found)
}

/// What is known of a new view of a texture (WebGPU, "Texture View Creation").
pub fn view_made<R, F: Find<R, ObjRef>, K: Known<R>>(
    find: &F,
    known: &K,
    texture: &R,
    desc: &ViewDesc,
) -> Result<ViewInfo, NoMemory>
    ensures { IfOk result (λ info. info ≡ view_made (F.finds find.now) (K.knows known.now) texture.now desc.now) }
{
    let reference = find.find(texture)?;
    Ok(view_info(known_texture(known.info(texture)), reference, desc))
}

/// What is known of a new pipeline layout (WebGPU, "Pipeline Layout Creation"). What is known of its
/// bind group layouts is shared; a null one has no entry.
pub fn pipeline_layout_made<R, F: Find<R, ObjRef>, K: Known<R>>(
    alloc: Global,
    find: &F,
    known: &K,
    layouts: &[Option<R>],
) -> Result<PipelineLayoutInfo, NoMemory>
    ensures { IfOk result (λ info. info ≡ pipeline_layout_made (F.finds find.now) (K.knows known.now) layouts.now) }
{
    Ok(PipelineLayoutInfo {
        layouts: given_layouts(alloc, find, layouts)?,
        layouts_info: known_group_layouts(alloc, known, layouts)?,
    })
}

/// What is known of a new bind group (WebGPU, "Bind Group Creation"). What is known of its layout is
/// shared.
pub fn group_made<R, F: Find<R, ObjRef>, K: Known<R>>(
    alloc: Global,
    find: &F,
    known: &K,
    layout: &R,
    entries: &[GroupEntryOf<R>],
) -> Result<GroupInfo, NoMemory>
    ensures { IfOk result (λ info. info ≡ group_made (F.finds find.now) (K.knows known.now) layout.now entries.now) }
{
    Ok(GroupInfo {
        layout: find.find(layout)?,
        layout_info: known_group_layout(alloc, known.info(layout))?,
        entries: bound_entries(alloc, find, known, entries)?,
    })
}

/// The layout that a pipeline derives from what its shaders use (WebGPU, "Default pipeline layout").
fn derived_layout(
    alloc: Global,
    iface: &[IfaceEntry],
) -> Result<Shared<PipelineLayoutInfo>, NoMemory>
    ensures { IfOk result (λ info. info ≡ record { layouts = []; layouts_info = automatic_layouts iface.now }) }
{
    let layout = PipelineLayoutInfo {
        layouts: Items::new(alloc),
        layouts_info: automatic_layouts(alloc, iface)?,
    };
    Shared::new(alloc, layout)
}

/// The layout of a pipeline: the one that it is made with, or what it derives.
fn layout_made<R, K: Known<R>>(
    alloc: Global,
    known: &K,
    layout: &Option<R>,
    iface: &[IfaceEntry],
) -> Result<Shared<PipelineLayoutInfo>, NoMemory>
    ensures { IfOk result (λ info. info ≡ layout_made (K.knows known.now) layout.now iface.now) }
{
    match layout {
        Some(layout) => known_pipeline_layout(alloc, known.info(layout)),
        None => derived_layout(alloc, iface),
    }
}

/// What is known of a new compute pipeline (WebGPU, "GPUComputePipeline"). What is known of its layout
/// and of what its shader uses is shared. With no layout it derives one, which takes memory and time that
/// grows with n log n in what its shader uses.
pub fn compute_made<R, F: Find<R, ObjRef>, K: Known<R>>(
    alloc: Global,
    find: &F,
    known: &K,
    layout: &Option<R>,
    iface: &Shared<Interface>,
) -> Result<ComputeInfo, NoMemory>
    ensures { IfOk result (λ info. info ≡ compute_made (F.finds find.now) (K.knows known.now) layout.now iface.now) }
{
    Ok(ComputeInfo {
        layout: map_maybe(find, layout)?,
        layout_info: layout_made(alloc, known, layout, iface.get().entries.as_slice())?,
        auto: layout.is_none(),
        iface: iface.share()?,
    })
}

/// What is known of a new render pipeline (WebGPU, "GPURenderPipeline"). What is known of its layout and
/// what it is asked for with are shared. With no layout it derives one, as a compute pipeline does.
pub fn render_made<R, F: Find<R, ObjRef>, K: Known<R>>(
    alloc: Global,
    find: &F,
    known: &K,
    layout: &Option<R>,
    desc: &Shared<RenderDesc>,
) -> Result<RenderInfo, NoMemory>
    ensures { IfOk result (λ info. info ≡ render_made (F.finds find.now) (K.knows known.now) layout.now desc.now) }
{
    Ok(RenderInfo {
        layout: map_maybe(find, layout)?,
        layout_info: layout_made(alloc, known, layout, desc.get().iface.as_slice())?,
        auto: layout.is_none(),
        desc: desc.share()?,
    })
}

/// The entries of the layout of a group, which are shared; none where there is no such group.
fn entries_at(
    alloc: Global,
    layouts: &[Shared<GroupLayoutInfo>],
    index: u32,
) -> Result<Shared<Items<LayoutEntry>>, NoMemory>
    ensures { IfOk result (λ entries. entries ≡ entries_at layouts.now index) }
{
    match layouts.get(index as usize) {
        Some(layout) => layout.get().entries.share(),
        None => no_entries(alloc),
    }
}

/// Whether an object is a pipeline that derived its layouts itself.
fn derives(known: Option<&Info>) -> bool
    ensures { result ≡ option_map_or is_automatic (option_copied known.entry) false }
{
    match known {
        Some(info) => is_automatic(info),
        None => false,
    }
}

/// What is known of the layout of a group that is got of a pipeline (WebGPU, "getBindGroupLayout"). Its
/// entries are shared with the pipeline's; it has none where the pipeline has no such group. It is
/// exclusive to the pipeline where that derived its layouts itself.
pub fn group_layout_got<R, F: Find<R, ObjRef>, K: Known<R>>(
    alloc: Global,
    find: &F,
    known: &K,
    pipeline: &R,
    index: u32,
) -> Result<GroupLayoutInfo, NoMemory>
    ensures { IfOk result (λ info. info ≡ group_layout_got (F.finds find.now) (K.knows known.now) pipeline.now index) }
{
    let reference = find.find(pipeline)?;
    let known = known.info(pipeline);
    let exclusive = if derives(known) {
        Some(reference.number)
    } else {
        None
    };
    Ok(GroupLayoutInfo {
        entries: entries_at(alloc, known_layouts(known), index)?,
        exclusive,
        pipeline: Some(reference),
    })
}
