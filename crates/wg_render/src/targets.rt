//! To what a render pass draws, and what its attachments touch.
ghost use Rattle.std.specs.Prelude.{◌≡◌, ◌++◌, false, map, option_map, IfOk, OnOk};
ghost use Rattle.std.specs.List.{flat_map};
ghost use Rattle.std.specs.Option.{option_map_or};
ghost use Rattle.wg_model.specs.Attachments.{drawn_views, color_view, depth_view, view_width, view_height, extent_of, samples_of, targets_of, handle_cells, sliced, attach_kind, attached, resolve_touches, color_touches, aspect_how, depth_how, cells_aspect, depth_touch, depth_touches, targets_touches};
ghost use Rattle.wg_render.specs.Attached.{formats_in, drawn_in};

use crate::views::{ColorTarget, DepthTarget, RenderBegin, attached_view, view_of};
use std::alloc::Global;
use wg_formats::extent;
use wg_subres::cells_of_view;
use wg_types::NoMemory;
use wg_types::formats::Format;
use wg_types::handles::Handle;
use wg_types::items::Items;
use wg_types::parts::{AccessKind, Aspect, Cells};
use wg_types::render::{LoadOp, StoreOp, TargetInfo};
use wg_types::steps::{Touch, Touches};
use wg_types::textures::ViewInfo;
use wg_types::usages::Usages;

/// The format of a color attachment, if there is one.
pub fn color_format(color: &Option<ColorTarget>) -> Option<Format>
    ensures { result ≡ option_map (λ target. (color_view target).texture_info.format) color.now }
{
    match color {
        Some(target) => Some(view_of(&target.view).texture_info.format),
        None => None,
    }
}

/// The formats of the color attachments, by slot.
fn color_formats(
    alloc: Global,
    colors: &[Option<ColorTarget>],
) -> Result<Items<Option<Format>>, NoMemory>
    ensures { IfOk result (λ formats. formats ≡ formats_in colors.now) }
{
    let mut formats = Items::new(alloc);
    for color in colors {
        formats.push(color_format(color))?;
    }
    Ok(formats)
}

/// The format of the depth attachment, if there is one.
fn depth_format(depth: &Option<DepthTarget>) -> Option<Format>
    ensures { result ≡ option_map (λ target. (depth_view target).texture_info.format) depth.now }
{
    match depth {
        Some(target) => Some(view_of(&target.view).texture_info.format),
        None => None,
    }
}

/// The count of samples of the first view to which a pass draws.
fn samples_of(colors: &[Option<ColorTarget>], depth: &Option<DepthTarget>) -> u32
    ensures { result ≡ samples_of (drawn_in colors.now depth.now) }
{
    for color in colors {
        let Some(target) = color else { continue };
        return view_of(&target.view).texture_info.samples;
    }
    match depth {
        Some(target) => view_of(&target.view).texture_info.samples,
        None => 1,
    }
}

/// How wide and how high the mip level of a view is.
fn view_extent(view: &ViewInfo) -> (u32, u32)
    ensures { result ≡ (view_width view.now, view_height view.now) }
{
    let size = extent(&view.texture_info, view.base_mip);
    (size[0], size[1])
}

/// How wide and how high the first view is to which a pass draws, in texels.
fn drawn_extent(colors: &[Option<ColorTarget>], depth: &Option<DepthTarget>) -> (u32, u32)
    ensures { result ≡ extent_of (drawn_in colors.now depth.now) }
{
    for color in colors {
        let Some(target) = color else { continue };
        return view_extent(&view_of(&target.view));
    }
    match depth {
        Some(target) => view_extent(&view_of(&target.view)),
        None => (0, 0),
    }
}

/// How wide and how high that is to which a render pass draws, in texels. Where its views differ, which rule
/// 305 refuses, it is the first of them.
pub fn extent_of(begin: &RenderBegin) -> (u32, u32)
    ensures { result ≡ extent_of (drawn_views begin.now) }
{
    drawn_extent(begin.colors.as_slice(), &begin.depth)
}

/// Whether depth is only read.
fn reads_depth(depth: &Option<DepthTarget>) -> bool
    ensures { result ≡ option_map_or (λ target. target.depth_read_only) depth.now false }
{
    match depth {
        Some(target) => target.depth_read_only,
        None => false,
    }
}

/// Whether stencil is only read.
fn reads_stencil(depth: &Option<DepthTarget>) -> bool
    ensures { result ≡ option_map_or (λ target. target.stencil_read_only) depth.now false }
{
    match depth {
        Some(target) => target.stencil_read_only,
        None => false,
    }
}

/// To what a render pass draws (WebGPU, "GPURenderPassLayout"). Where its views differ in their count of
/// samples, which rule 305 refuses, it is that of the first.
pub fn targets_of(alloc: Global, begin: &RenderBegin) -> Result<TargetInfo, NoMemory>
    ensures { IfOk result (λ targets. targets ≡ targets_of begin.now) }
{
    let colors = color_formats(alloc, begin.colors.as_slice())?;
    Ok(TargetInfo {
        colors,
        depth: depth_format(&begin.depth),
        samples: samples_of(begin.colors.as_slice(), &begin.depth),
        depth_read_only: reads_depth(&begin.depth),
        stencil_read_only: reads_stencil(&begin.depth),
    })
}

/// The cells of a view.
fn handle_cells(alloc: Global, handle: &Handle) -> Result<Items<Cells>, NoMemory>
    ensures { IfOk result (λ cells. cells ≡ handle_cells handle.now) }
{
    match attached_view(handle) {
        Some(view) => {
            let cells = cells_of_view(alloc, view)?;
            return Ok(cells);
        }
        None => return Ok(Items::new(alloc)),
    }
}

/// One slice of what are slices, if one is given. One past which no number is, which rule 308 refuses,
/// is answered as want of memory.
fn sliced(slice: Option<u32>, cells: Cells) -> Result<Cells, NoMemory>
    ensures { IfOk result (λ found. found ≡ sliced slice cells) }
{
    match (slice, cells) {
        (Some(slice), Cells::Slices { object, mip, .. }) => match slice.checked_add(1) {
            Some(hi) => {
                return Ok(Cells::Slices {
                    object,
                    mip,
                    lo: slice,
                    hi,
                });
            }
            None => return Err(NoMemory),
        },
        _ => return Ok(cells),
    }
}

/// The aspect of cells of a texture.
fn cells_aspect(cells: Cells) -> Aspect
    ensures { result ≡ cells_aspect cells }
{
    match cells {
        Cells::Layers { aspect, .. } => aspect,
        _ => Aspect::Color,
    }
}

/// How an attachment is accessed: read where it is loaded, and left unset where it is discarded.
fn attach_kind(load: LoadOp, store: StoreOp) -> AccessKind
    ensures { result ≡ attach_kind load store }
{
    match (load, store) {
        (LoadOp::Load, StoreOp::Store) => AccessKind::Both,
        (LoadOp::Clear, StoreOp::Store) => AccessKind::Write,
        (LoadOp::Load, StoreOp::Discard) => AccessKind::ReadDrop,
        (LoadOp::Clear, StoreOp::Discard) => AccessKind::Drop,
    }
}

/// Adds cells, or one slice of them, that are all attached so.
fn push_attached(
    touches: &mut Touches,
    how: (Usages, AccessKind),
    slice: Option<u32>,
    cells: &[Cells],
) -> Result<(), NoMemory>
    ensures { OnOk result (touches.new ≡ touches.old ++ map (attached how) (map (sliced slice) cells.now)) }
{
    for run in cells {
        touches.push((sliced(slice, *run)?, how))?;
    }
    Ok(())
}

/// Adds the view to which an attachment is resolved.
#[tactic(auto, using(crate::proofs::Alike::sliced_whole))]
fn push_resolve(touches: &mut Touches, alloc: Global, view: &Option<Handle>) -> Result<(), NoMemory>
    ensures { OnOk result (touches.new ≡ touches.old ++ resolve_touches view.now) }
{
    let Some(view) = view else { return Ok(()) };
    let cells = handle_cells(alloc, view)?;
    let how = (Usages::ATTACHMENT, AccessKind::Write);
    push_attached(touches, how, None, cells.as_slice())
}

/// Adds a color attachment, if there is one.
fn push_color(
    touches: &mut Touches,
    alloc: Global,
    color: &Option<ColorTarget>,
) -> Result<(), NoMemory>
    ensures { OnOk result (touches.new ≡ touches.old ++ color_touches color.now) }
{
    let Some(target) = color else { return Ok(()) };
    let cells = handle_cells(alloc, &target.view)?;
    let how = (Usages::ATTACHMENT, attach_kind(target.load, target.store));
    push_attached(touches, how, target.depth_slice, cells.as_slice())?;
    push_resolve(touches, alloc, &target.resolve)
}

/// Adds color attachments.
fn push_colors(
    touches: &mut Touches,
    alloc: Global,
    colors: &[Option<ColorTarget>],
) -> Result<(), NoMemory>
    ensures { OnOk result (touches.new ≡ touches.old ++ flat_map color_touches colors.now) }
{
    for color in colors {
        push_color(touches, alloc, color)?;
    }
    Ok(())
}

/// How an aspect of a depth attachment is used and accessed.
fn aspect_how(read_only: bool, load: Option<LoadOp>, store: Option<StoreOp>) -> (Usages, AccessKind)
    ensures { result ≡ aspect_how read_only load store }
{
    if read_only {
        return (Usages::ATTACHMENT_READ, AccessKind::Read);
    }
    let kind = attach_kind(
        load.unwrap_or(LoadOp::Load),
        store.unwrap_or(StoreOp::Store),
    );
    (Usages::ATTACHMENT, kind)
}

fn depth_how(target: &DepthTarget, aspect: Aspect) -> (Usages, AccessKind)
    ensures { result ≡ depth_how target.now aspect }
{
    match aspect {
        Aspect::Color | Aspect::Depth => {
            aspect_how(
                target.depth_read_only,
                target.depth_load,
                target.depth_store,
            )
        }
        Aspect::Stencil => aspect_how(
            target.stencil_read_only,
            target.stencil_load,
            target.stencil_store,
        ),
    }
}

fn depth_touch(target: &DepthTarget, cells: Cells) -> Touch
    ensures { result ≡ depth_touch target.now cells }
{
    (cells, depth_how(target, cells_aspect(cells)))
}

/// Adds cells of a depth attachment, each as its aspect is attached.
fn push_aspects(
    touches: &mut Touches,
    target: &DepthTarget,
    cells: &[Cells],
) -> Result<(), NoMemory>
    ensures { OnOk result (touches.new ≡ touches.old ++ map (depth_touch target.now) cells.now) }
{
    for run in cells {
        touches.push(depth_touch(target, *run))?;
    }
    Ok(())
}

/// Adds a depth attachment, if there is one.
fn push_depth(
    touches: &mut Touches,
    alloc: Global,
    depth: &Option<DepthTarget>,
) -> Result<(), NoMemory>
    ensures { OnOk result (touches.new ≡ touches.old ++ depth_touches depth.now) }
{
    let Some(target) = depth else { return Ok(()) };
    let cells = handle_cells(alloc, &target.view)?;
    push_aspects(touches, target, cells.as_slice())
}

/// What the attachments of a render pass touch: the cells of their views, or one slice of a 3d view
/// (WebGPU, "Render Pass Attachments").
#[tactic(auto, unfolding(wg_model::specs::Attachments::targets_touches))]
pub fn targets_touches(alloc: Global, begin: &RenderBegin) -> Result<Touches, NoMemory>
    ensures { IfOk result (λ touches. touches ≡ targets_touches begin.now) }
{
    let mut touches = Items::new(alloc);
    push_colors(&mut touches, alloc, begin.colors.as_slice())?;
    push_depth(&mut touches, alloc, &begin.depth)?;
    Ok(touches)
}
