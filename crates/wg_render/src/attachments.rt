//! The rules of the begin of a render pass.
ghost use Rattle.std.specs.Prelude.{◌≡◌, ◌||◌, true, is_some};
ghost use Rattle.std.specs.List.{list_all, list_any};
ghost use Rattle.std.specs.Option.{option_map_or};
ghost use Rattle.wg_model.specs.Rules.{first_unmet};
ghost use Rattle.wg_model.specs.Attachments.{color_view, color_attached, depth_view, target_views, is_flat, is_deep, is_renderable, color_fits, slice_fits, slices_meet, attached_meet, has_all_aspects, depth_attachment_fits, ops_fit, depth_ops_fit, same_extent, are_alike, all_alike, attached_are_apart, resolves_to, resolve_fits, is_cleared, clear_value_fits, depth_clear_fits, begin_rules};
ghost use Rattle.wg_render.specs.Attached.{given_of, drawn_in, attached_in, AreApartBefore};

use crate::samples::samples_fit;
use crate::views::{ColorTarget, DepthTarget, RenderBegin, view_of};
use wg_formats::{extent, has_named, is_color, named_aspects};
use wg_rules::{
    ATTACHMENTS_AGREE_IN_EXTENT_AND_SAMPLES, COLOR_VIEWS_ARE_RENDERABLE,
    DEPTH_CLEAR_VALUE_IS_IN_RANGE, DEPTH_OPERATIONS_FIT_FORMAT, DEPTH_SLICES_FIT_VIEWS,
    DEPTH_VIEW_IS_RENDERABLE, NOTHING_IS_ATTACHED_TWICE, PASS_COLORS_ARE_WITHIN_LIMIT,
    PASS_HAS_ATTACHMENT, RESOLVE_VIEWS_FIT_COLORS, SAMPLE_BYTES_ARE_WITHIN_LIMIT,
};
use wg_subres::views_meet;
use wg_types::limits::CommandLimits;
use wg_types::render::{LoadOp, StoreOp};
use wg_types::textures::{AspectWord, ViewDim, ViewInfo};

/// How many color attachments there may be.
const MOST_COLORS: usize = 8;

/// The most to which depth is cleared, 1, as the values stand: over 65536.
const ONE: u64 = 65536;

/// The usage bit that a texture needs to be drawn to.
const RENDER_ATTACHMENT: u32 = 16;

/// Whether a view of this dimension may be drawn to.
fn is_flat(dim: ViewDim) -> bool
    ensures { result ≡ is_flat dim }
{
    match dim {
        ViewDim::Two | ViewDim::TwoArray => true,
        ViewDim::One | ViewDim::Cube | ViewDim::CubeArray | ViewDim::Three => false,
    }
}

/// Whether a view of this dimension is drawn to by slices.
fn is_deep(dim: ViewDim) -> bool
    ensures { result ≡ is_deep dim }
{
    match dim {
        ViewDim::Three => true,
        ViewDim::One | ViewDim::Two | ViewDim::TwoArray | ViewDim::Cube | ViewDim::CubeArray =>
            false,
    }
}

/// Whether a view may be drawn to, whatever its dimension and format.
fn is_renderable(view: &ViewInfo) -> bool
    ensures { result ≡ is_renderable view.now }
{
    view.texture_info.usage & RENDER_ATTACHMENT != 0 && view.mips == 1 && view.layers == 1
}

/// Whether a view may be a color attachment.
fn color_fits(view: &ViewInfo) -> bool
    ensures { result ≡ color_fits view.now }
{
    is_renderable(view)
        && (is_flat(view.dim) || is_deep(view.dim))
        && is_color(view.texture_info.format)
}

/// Whether a slice is given exactly where a view is 3d, and is one of its mip level.
fn slice_fits(view: &ViewInfo, slice: Option<u32>) -> bool
    ensures { result ≡ slice_fits (view.now, slice) }
{
    match slice {
        Some(slice) => { is_deep(view.dim) && slice < extent(&view.texture_info, view.base_mip)[2] }
        None => !is_deep(view.dim),
    }
}

/// Whether a view has all aspects of its texture's format.
fn has_all_aspects(view: &ViewInfo) -> bool
    ensures { result ≡ has_all_aspects view.now }
{
    let format = view.texture_info.format;
    named_aspects(view.aspect, format).len() == named_aspects(AspectWord::All, format).len()
}

/// Whether a view may be a depth attachment.
fn depth_fits(view: &ViewInfo) -> bool
    ensures { result ≡ depth_attachment_fits view.now }
{
    is_renderable(view)
        && is_flat(view.dim)
        && !is_color(view.texture_info.format)
        && has_all_aspects(view)
}

/// Whether load and store are given exactly where they are wanted.
fn ops_fit(wanted: bool, load: Option<LoadOp>, store: Option<StoreOp>) -> bool
    ensures { result ≡ ops_fit wanted load store }
{
    load.is_some() == wanted && store.is_some() == wanted
}

/// Whether they are for depth and for stencil.
fn depth_ops_fit(target: &DepthTarget) -> bool
    ensures { result ≡ depth_ops_fit target.now }
{
    let format = view_of(&target.view).texture_info.format;
    let depth = has_named(AspectWord::DepthOnly, format) && !target.depth_read_only;
    let stencil = has_named(AspectWord::StencilOnly, format) && !target.stencil_read_only;
    ops_fit(depth, target.depth_load, target.depth_store)
        && ops_fit(stencil, target.stencil_load, target.stencil_store)
}

/// Whether what is attached is cleared as its pass begins.
fn is_cleared(load: Option<LoadOp>) -> bool
    ensures { result ≡ is_cleared load }
{
    match load {
        Some(LoadOp::Clear) => true,
        Some(LoadOp::Load) | None => false,
    }
}

/// Whether a value to which depth is cleared is given, and is in range.
fn clear_value_fits(value: Option<u64>) -> bool
    ensures { result ≡ clear_value_fits value }
{
    match value {
        Some(value) => value <= ONE,
        None => false,
    }
}

/// Whether depth is not cleared, or to a value in range.
fn depth_clear_fits(target: &DepthTarget) -> bool
    ensures { result ≡ depth_clear_fits target.now }
{
    !is_cleared(target.depth_load) || clear_value_fits(target.depth_clear)
}

/// Whether the mip levels of two views are equally wide and high.
fn same_extent(a: &ViewInfo, b: &ViewInfo) -> bool
    ensures { result ≡ same_extent a.now b.now }
{
    let size = extent(&a.texture_info, a.base_mip);
    let other = extent(&b.texture_info, b.base_mip);
    size[0] == other[0] && size[1] == other[1]
}

/// Whether two views have one extent and one count of samples.
fn are_alike(a: &ViewInfo, b: &ViewInfo) -> bool
    ensures { result ≡ are_alike a.now b.now }
{
    same_extent(a, b) && a.texture_info.samples == b.texture_info.samples
}

/// Whether a view may be resolved to another.
fn resolves_to(view: &ViewInfo, target: &ViewInfo) -> bool
    ensures { result ≡ resolves_to view.now target.now }
{
    view.texture_info.samples == 4
        && target.texture_info.samples == 1
        && color_fits(target)
        && is_flat(target.dim)
        && view.texture_info.format == target.texture_info.format
        && same_extent(view, target)
}

/// Whether what an attachment is resolved to will do.
fn resolve_fits(target: &ColorTarget) -> bool
    ensures { result ≡ resolve_fits target.now }
{
    match &target.resolve {
        Some(resolve) => resolves_to(&view_of(&target.view), &view_of(resolve)),
        None => true,
    }
}

/// Whether some color attachment is given.
fn some_color(colors: &[Option<ColorTarget>]) -> bool
    ensures { result ≡ list_any (λ color. is_some color) colors.now }
{
    colors.iter().any(|color| color.is_some())
}

/// Whether some attachment is given.
fn some_given(begin: &RenderBegin) -> bool
    ensures { result ≡ (list_any (λ color. is_some color) begin.now.colors || is_some begin.now.depth) }
{
    some_color(begin.colors.as_slice()) || begin.depth.is_some()
}

/// Whether each color view may be a color attachment.
fn colors_fit(colors: &[Option<ColorTarget>]) -> bool
    ensures { result ≡ list_all (λ target. color_fits (color_view target)) (given_of colors.now) }
{
    for color in colors {
        let Some(target) = color else { continue };
        if !color_fits(&view_of(&target.view)) {
            return false;
        }
    }
    true
}

/// Whether a slice is given exactly where a color view is 3d, and is one of its mip level.
fn slices_fit(colors: &[Option<ColorTarget>]) -> bool
    ensures { result ≡ list_all (λ target. slice_fits (color_attached target)) (given_of colors.now) }
{
    for color in colors {
        let Some(target) = color else { continue };
        if !slice_fits(&view_of(&target.view), target.depth_slice) {
            return false;
        }
    }
    true
}

/// Whether what each color attachment is resolved to will do.
fn resolves_fit(colors: &[Option<ColorTarget>]) -> bool
    ensures { result ≡ list_all resolve_fits (given_of colors.now) }
{
    for color in colors {
        let Some(target) = color else { continue };
        if !resolve_fits(target) {
            return false;
        }
    }
    true
}

/// Whether a view is like all to which a pass draws.
fn is_like_all(view: &ViewInfo, colors: &[Option<ColorTarget>], depth: &Option<DepthTarget>) -> bool
    ensures { result ≡ list_all (are_alike view.now) (drawn_in colors.now depth.now) }
{
    for color in colors {
        let Some(target) = color else { continue };
        if !are_alike(view, &view_of(&target.view)) {
            return false;
        }
    }
    match depth {
        Some(target) => are_alike(view, &view_of(&target.view)),
        None => true,
    }
}

/// Whether all views to which a pass draws are alike.
#[tactic(auto, using(crate::proofs::Alike::alike_first))]
fn all_alike(colors: &[Option<ColorTarget>], depth: &Option<DepthTarget>) -> bool
    ensures { result ≡ all_alike (drawn_in colors.now depth.now) }
{
    for (i, color) in colors.iter().enumerate() {
        let Some(target) = color else { continue };
        return is_like_all(&view_of(&target.view), &colors[i..], depth);
    }
    true
}

/// Whether two attachments of one 3D texture may have a slice in common.
fn slices_meet(slice: Option<u32>, other: Option<u32>) -> bool
    ensures { result ≡ slices_meet slice other }
{
    match (slice, other) {
        (Some(slice), Some(other)) => slice == other,
        _ => true,
    }
}

/// Whether two attachments have a cell in common.
fn attached_meet(
    view: &ViewInfo,
    slice: Option<u32>,
    other: &ViewInfo,
    other_slice: Option<u32>,
) -> bool
    ensures { result ≡ attached_meet (view.now, slice) (other.now, other_slice) }
{
    views_meet(view, other) && slices_meet(slice, other_slice)
}

/// Whether an attachment has a cell in common with one of those that are attached.
fn meets_some(
    view: &ViewInfo,
    slice: Option<u32>,
    colors: &[Option<ColorTarget>],
    depth: &Option<DepthTarget>,
) -> bool
    ensures { result ≡ list_any (attached_meet (view.now, slice)) (attached_in colors.now depth.now) }
{
    for color in colors {
        let Some(target) = color else { continue };
        if attached_meet(view, slice, &view_of(&target.view), target.depth_slice) {
            return true;
        }
        if let Some(resolve) = &target.resolve {
            if attached_meet(view, slice, &view_of(resolve), None) {
                return true;
            }
        }
    }
    match depth {
        Some(target) => attached_meet(view, slice, &view_of(&target.view), None),
        None => false,
    }
}

/// Whether a color attachment's views have no cell in common, and none with those that are attached
/// behind it.
fn is_apart(
    target: &ColorTarget,
    colors: &[Option<ColorTarget>],
    depth: &Option<DepthTarget>,
) -> bool
    ensures { AreApartBefore (target_views target.now) (attached_in colors.now depth.now) result }
{
    let view = view_of(&target.view);
    let slice = target.depth_slice;
    if meets_some(&view, slice, colors, depth) {
        return false;
    }
    match &target.resolve {
        Some(resolve) => {
            let resolve = view_of(resolve);
            !attached_meet(&view, slice, &resolve, None)
                && !meets_some(&resolve, None, colors, depth)
        }
        None => true,
    }
}

/// Whether no cell is attached twice.
#[tactic(auto, using(crate::proofs::Alike::attached_cons))]
fn are_apart(colors: &[Option<ColorTarget>], depth: &Option<DepthTarget>) -> bool
    ensures { result ≡ attached_are_apart (attached_in colors.now depth.now) }
{
    for (i, color) in colors.iter().enumerate() {
        let Some(target) = color else { continue };
        if !is_apart(target, &colors[i + 1..], depth) {
            return false;
        }
    }
    true
}

/// Whether a depth attachment will do, if there is one.
fn depth_view_fits(depth: &Option<DepthTarget>) -> bool
    ensures { result ≡ option_map_or (λ target. depth_attachment_fits (depth_view target)) depth.now true }
{
    match depth {
        Some(target) => depth_fits(&view_of(&target.view)),
        None => true,
    }
}

/// Whether load and store are given as a depth attachment wants them, if there is one.
fn ops_given_fit(depth: &Option<DepthTarget>) -> bool
    ensures { result ≡ option_map_or depth_ops_fit depth.now true }
{
    match depth {
        Some(target) => depth_ops_fit(target),
        None => true,
    }
}

/// Whether the depth of a depth attachment is not cleared, or to a value in range, if there is one.
fn clear_given_fits(depth: &Option<DepthTarget>) -> bool
    ensures { result ≡ option_map_or depth_clear_fits depth.now true }
{
    match depth {
        Some(target) => depth_clear_fits(target),
        None => true,
    }
}

/// The number of the first unmet rule of beginRenderPass on a device with these limits, but for those on the
/// objects that it names (WebGPU, "Render Pass Encoder Creation" and "Render Pass Attachments"); none where the
/// pass may begin.
#[tactic(auto, unfolding(wg_model::specs::Attachments::begin_rules))]
pub fn check_begin(limits: &CommandLimits, begin: &RenderBegin) -> Option<u16>
    ensures { result ≡ first_unmet (begin_rules limits.now begin.now) }
{
    let colors = begin.colors.as_slice();
    if colors.len() > MOST_COLORS {
        return Some(PASS_COLORS_ARE_WITHIN_LIMIT);
    }
    if !some_given(begin) {
        return Some(PASS_HAS_ATTACHMENT);
    }
    if !colors_fit(colors) {
        return Some(COLOR_VIEWS_ARE_RENDERABLE);
    }
    if !slices_fit(colors) {
        return Some(DEPTH_SLICES_FIT_VIEWS);
    }
    if !depth_view_fits(&begin.depth) {
        return Some(DEPTH_VIEW_IS_RENDERABLE);
    }
    if !ops_given_fit(&begin.depth) {
        return Some(DEPTH_OPERATIONS_FIT_FORMAT);
    }
    if !clear_given_fits(&begin.depth) {
        return Some(DEPTH_CLEAR_VALUE_IS_IN_RANGE);
    }
    if !all_alike(colors, &begin.depth) {
        return Some(ATTACHMENTS_AGREE_IN_EXTENT_AND_SAMPLES);
    }
    if !are_apart(colors, &begin.depth) {
        return Some(NOTHING_IS_ATTACHED_TWICE);
    }
    if !resolves_fit(colors) {
        return Some(RESOLVE_VIEWS_FIT_COLORS);
    }
    if !samples_fit(limits.max_color_attachment_bytes_per_sample, colors) {
        return Some(SAMPLE_BYTES_ARE_WITHIN_LIMIT);
    }
    None
}
