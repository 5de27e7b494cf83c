//! Render pipelines, and what render passes begin with.
ghost use Rattle.std.specs.Prelude.{◌≡◌, ◌++◌, IfOk, OnOk, map, option_map};
ghost use Rattle.std.specs.List.{flat_map};
ghost use Rattle.wg_trace.specs.Added.{BeginsWith};
ghost use Rattle.wg_types.specs.Refs.{first_of, maybe_wanted};
ghost use Rattle.wg_types.specs.Render.{color_named, depth_named, begin_named, map_color, map_depth, map_begin};

use crate::NoMemory;
use crate::bindings::IfaceEntry;
use crate::fixed::{DepthState, PrimitiveState, Target};
use crate::formats::Format;
use crate::items::Items;
use crate::refs::{self, Ask, Find, Gather};
use crate::vertex::VertexBuffer;
use crate::wanted::Wanted;
use std::alloc::Global;

/// What a render pipeline is asked for with, beside its layout (WebGPU, "GPURenderPipelineDescriptor"):
/// what its shaders use of its groups, its vertex buffers and its color targets by slot, some of which may be
/// left out, what its vertices make, what it does with depth and stencil, its count of samples, and whether
/// alphas tell which samples are covered. The mask of samples is not told: no rule goes by that.
#[derive(Clone, Drop)]
pub struct RenderDesc {
    pub iface: Items<IfaceEntry>,
    pub buffers: Items<Option<VertexBuffer>>,
    pub targets: Items<Option<Target>>,
    pub primitive: PrimitiveState,
    pub depth: Option<DepthState>,
    pub samples: u32,
    pub alpha_to_coverage: bool,
}

/// To what a render pass or a bundle draws (WebGPU, "GPURenderPassLayout"): the formats of its color
/// attachments, of its depth attachment, the count of samples, and whether depth and stencil are only
/// read.
#[derive(Clone, Drop)]
pub struct TargetInfo {
    pub colors: Items<Option<Format>>,
    pub depth: Option<Format>,
    pub samples: u32,
    pub depth_read_only: bool,
    pub stencil_read_only: bool,
}

/// What becomes of an attachment as its pass begins (WebGPU, "GPULoadOp").
#[derive(Clone, Copy, PartialEq, Eq)]
pub enum LoadOp {
    Load,
    Clear,
}

/// What becomes of an attachment as its pass ends (WebGPU, "GPUStoreOp").
#[derive(Clone, Copy, PartialEq, Eq)]
pub enum StoreOp {
    Store,
    Discard,
}

/// A color attachment, with its views as `R` (WebGPU, "GPURenderPassColorAttachment"); `depth_slice` is the
/// slice of a 3d view that is drawn to.
#[derive(Drop)]
pub struct ColorTargetOf<R> {
    pub view: R,
    pub depth_slice: Option<u32>,
    pub resolve: Option<R>,
    pub load: LoadOp,
    pub store: StoreOp,
}

/// A depth and stencil attachment, with its view as `R` (WebGPU, "GPURenderPassDepthStencilAttachment").
/// `depth_clear`, which stands for itself over 65536, is to what depth is cleared, if that is told. To what
/// stencil is cleared is not: no rule goes by that.
#[derive(Drop)]
pub struct DepthTargetOf<R> {
    pub view: R,
    pub depth_load: Option<LoadOp>,
    pub depth_clear: Option<u64>,
    pub depth_store: Option<StoreOp>,
    pub depth_read_only: bool,
    pub stencil_load: Option<LoadOp>,
    pub stencil_store: Option<StoreOp>,
    pub stencil_read_only: bool,
}

/// A viewport (WebGPU, "setViewport()"). Each number stands for itself over 65536. It begins `x` to the right
/// of the left edge of what is attached, or where `left` is set to the left of it, and so `y` downwards, or
/// where `above` is set upwards.
#[derive(Clone, Copy, PartialEq, Eq)]
pub struct Viewport {
    pub x: u64,
    pub left: bool,
    pub y: u64,
    pub above: bool,
    pub width: u64,
    pub height: u64,
    pub min_depth: u64,
    pub max_depth: u64,
}

/// What a render pass begins with, with views and the query set as `R` (WebGPU, "GPURenderPassDescriptor").
/// Color attachments stand by slot, some of which may be left out. The occlusion queries of the pass are
/// those of the query set. It may draw `max_draws` times, or as often as it will where that is left out.
#[derive(Drop)]
pub struct RenderBeginOf<R> {
    pub colors: Items<Option<ColorTargetOf<R>>>,
    pub depth: Option<DepthTargetOf<R>>,
    pub queries: Option<R>,
    pub max_draws: Option<u64>,
}

impl<R> RenderBeginOf<R> {
    /// What the first object answers that has an answer: of each color attachment the view and then that
    /// to which it is resolved, then the view of the depth attachment, and last the query set.
    pub fn first<E: Drop, A: Ask<R, E>>(&self, asked: &A) -> Option<E>
        ensures { result ≡ first_of (A.asks asked.now) (begin_named self.now) }
    {
        first_begun(asked, self.colors.as_slice(), &self.depth, &self.queries)
    }

    /// Gathers what there is of the views and of the query set, in the same order.
    pub fn gather<T, G: Gather<R, T>>(&self, gather: &G, found: &mut Vec<T>) -> Result<(), NoMemory>
        ensures gathered { OnOk result (found.new.items ≡ found.old.items ++ flat_map (G.gathers gather.now) (begin_named self.now)) }
        ensures begins { BeginsWith found.new.items found.old.items }
    {
        gather_begun(
            gather,
            found,
            self.colors.as_slice(),
            &self.depth,
            &self.queries,
        )
    }

    /// The same with other objects.
    pub fn map<S: Drop, F: Find<R, S>>(
        &self,
        alloc: Global,
        find: &F,
    ) -> Result<RenderBeginOf<S>, NoMemory>
        ensures { IfOk result (λ begin. begin ≡ map_begin (F.finds find.now) self.now) }
    {
        Ok(RenderBeginOf {
            colors: found_colors(alloc, find, self.colors.as_slice())?,
            depth: found_depth(find, &self.depth)?,
            queries: refs::map_maybe(find, &self.queries)?,
            max_draws: self.max_draws,
        })
    }
}

/// Asks the views of a color attachment, if there is one.
fn ask_color<R, E: Drop, A: Ask<R, E>>(asked: &A, color: &Option<ColorTargetOf<R>>) -> Option<E>
    ensures { result ≡ first_of (A.asks asked.now) (color_named color.now) }
{
    match color {
        Some(target) => {
            if let Some(found) = asked.ask(&target.view, Wanted::View) {
                return Some(found);
            }
            refs::maybe(asked, &target.resolve, Wanted::View)
        }
        None => None,
    }
}

/// Asks the views of color attachments.
#[tactic(auto, using(crate::proofs::RefLemmas::first_joined))]
fn first_color<R, E: Drop, A: Ask<R, E>>(
    asked: &A,
    colors: &[Option<ColorTargetOf<R>>],
) -> Option<E>
    ensures { result ≡ first_of (A.asks asked.now) (flat_map color_named colors.now) }
{
    for color in colors {
        if let Some(found) = ask_color(asked, color) {
            return Some(found);
        }
    }
    None
}

/// Asks the view of a depth attachment, if there is one.
fn ask_depth<R, E: Drop, A: Ask<R, E>>(asked: &A, depth: &Option<DepthTargetOf<R>>) -> Option<E>
    ensures { result ≡ first_of (A.asks asked.now) (depth_named depth.now) }
{
    match depth {
        Some(target) => asked.ask(&target.view, Wanted::View),
        None => None,
    }
}

/// Asks the views of all attachments.
#[tactic(auto, using(crate::proofs::RefLemmas::first_joined))]
fn first_target<R, E: Drop, A: Ask<R, E>>(
    asked: &A,
    colors: &[Option<ColorTargetOf<R>>],
    depth: &Option<DepthTargetOf<R>>,
) -> Option<E>
    ensures { result ≡ first_of (A.asks asked.now) (flat_map color_named colors.now ++ depth_named depth.now) }
{
    if let Some(found) = first_color(asked, colors) {
        return Some(found);
    }
    ask_depth(asked, depth)
}

/// Asks the views of all attachments, and then the query set, if there is one.
#[tactic(auto, using(crate::proofs::RefLemmas::first_joined))]
fn first_begun<R, E: Drop, A: Ask<R, E>>(
    asked: &A,
    colors: &[Option<ColorTargetOf<R>>],
    depth: &Option<DepthTargetOf<R>>,
    queries: &Option<R>,
) -> Option<E>
    ensures { result ≡ first_of (A.asks asked.now) ((flat_map color_named colors.now ++ depth_named depth.now) ++ maybe_wanted Wanted.Queries queries.now) }
{
    if let Some(found) = first_target(asked, colors, depth) {
        return Some(found);
    }
    refs::maybe(asked, queries, Wanted::Queries)
}

/// Gathers what there is of the views of a color attachment, if there is one.
#[tactic(auto, using(crate::proofs::RefLemmas::flat_joined, wg_trace::proofs::Beginnings::begins_self, wg_trace::proofs::Beginnings::begins_then))]
fn gather_color<R, T, G: Gather<R, T>>(
    gather: &G,
    found: &mut Vec<T>,
    color: &Option<ColorTargetOf<R>>,
) -> Result<(), NoMemory>
    ensures gathered { OnOk result (found.new.items ≡ found.old.items ++ flat_map (G.gathers gather.now) (color_named color.now)) }
    ensures begins { BeginsWith found.new.items found.old.items }
{
    match color {
        Some(target) => {
            gather.gather(found, &target.view, Wanted::View)?;
            refs::gather_maybe(gather, found, &target.resolve, Wanted::View)
        }
        None => Ok(()),
    }
}

/// Gathers what there is of the views of color attachments.
#[tactic(auto, using(crate::proofs::RefLemmas::flat_joined, wg_trace::proofs::Beginnings::begins_self))]
fn gather_colors<R, T, G: Gather<R, T>>(
    gather: &G,
    found: &mut Vec<T>,
    colors: &[Option<ColorTargetOf<R>>],
) -> Result<(), NoMemory>
    ensures gathered { OnOk result (found.new.items ≡ found.old.items ++ flat_map (G.gathers gather.now) (flat_map color_named colors.now)) }
    ensures begins { BeginsWith found.new.items found.old.items }
{
    for color in colors {
        gather_color(gather, found, color)?;
    }
    Ok(())
}

/// Gathers what there is of the view of a depth attachment, if there is one.
#[tactic(auto, using(wg_trace::proofs::Beginnings::begins_self))]
fn gather_depth<R, T, G: Gather<R, T>>(
    gather: &G,
    found: &mut Vec<T>,
    depth: &Option<DepthTargetOf<R>>,
) -> Result<(), NoMemory>
    ensures gathered { OnOk result (found.new.items ≡ found.old.items ++ flat_map (G.gathers gather.now) (depth_named depth.now)) }
    ensures begins { BeginsWith found.new.items found.old.items }
{
    match depth {
        Some(target) => refs::gather_one(gather, found, &target.view, Wanted::View),
        None => Ok(()),
    }
}

/// Gathers what there is of the views of all attachments.
#[tactic(auto, using(crate::proofs::RefLemmas::flat_joined, wg_trace::proofs::Beginnings::begins_then))]
fn gather_targets<R, T, G: Gather<R, T>>(
    gather: &G,
    found: &mut Vec<T>,
    colors: &[Option<ColorTargetOf<R>>],
    depth: &Option<DepthTargetOf<R>>,
) -> Result<(), NoMemory>
    ensures gathered { OnOk result (found.new.items ≡ found.old.items ++ flat_map (G.gathers gather.now) (flat_map color_named colors.now ++ depth_named depth.now)) }
    ensures begins { BeginsWith found.new.items found.old.items }
{
    gather_colors(gather, found, colors)?;
    gather_depth(gather, found, depth)
}

/// Gathers what there is of the views of all attachments, and then of the query set, if there is one.
#[tactic(auto, using(crate::proofs::RefLemmas::flat_joined, wg_trace::proofs::Beginnings::begins_then))]
fn gather_begun<R, T, G: Gather<R, T>>(
    gather: &G,
    found: &mut Vec<T>,
    colors: &[Option<ColorTargetOf<R>>],
    depth: &Option<DepthTargetOf<R>>,
    queries: &Option<R>,
) -> Result<(), NoMemory>
    ensures gathered { OnOk result (found.new.items ≡ found.old.items ++ flat_map (G.gathers gather.now) ((flat_map color_named colors.now ++ depth_named depth.now) ++ maybe_wanted Wanted.Queries queries.now)) }
    ensures begins { BeginsWith found.new.items found.old.items }
{
    gather_targets(gather, found, colors, depth)?;
    refs::gather_maybe(gather, found, queries, Wanted::Queries)
}

fn found_color<R, S: Drop, F: Find<R, S>>(
    find: &F,
    color: &Option<ColorTargetOf<R>>,
) -> Result<Option<ColorTargetOf<S>>, NoMemory>
    ensures { IfOk result (λ found. found ≡ option_map (map_color (F.finds find.now)) color.now) }
{
    match color {
        Some(target) => Ok(Some(ColorTargetOf {
            view: find.find(&target.view)?,
            depth_slice: target.depth_slice,
            resolve: refs::map_maybe(find, &target.resolve)?,
            load: target.load,
            store: target.store,
        })),
        None => Ok(None),
    }
}

fn found_colors<R, S: Drop, F: Find<R, S>>(
    alloc: Global,
    find: &F,
    colors: &[Option<ColorTargetOf<R>>],
) -> Result<Items<Option<ColorTargetOf<S>>>, NoMemory>
    ensures { IfOk result (λ found. found ≡ map (option_map (map_color (F.finds find.now))) colors.now) }
{
    let mut found = Items::new(alloc);
    for color in colors {
        found.push(found_color(find, color)?)?;
    }
    Ok(found)
}

fn found_depth<R, S: Drop, F: Find<R, S>>(
    find: &F,
    depth: &Option<DepthTargetOf<R>>,
) -> Result<Option<DepthTargetOf<S>>, NoMemory>
    ensures { IfOk result (λ found. found ≡ option_map (map_depth (F.finds find.now)) depth.now) }
{
    match depth {
        Some(target) => Ok(Some(DepthTargetOf {
            view: find.find(&target.view)?,
            depth_load: target.depth_load,
            depth_clear: target.depth_clear,
            depth_store: target.depth_store,
            depth_read_only: target.depth_read_only,
            stencil_load: target.stencil_load,
            stencil_store: target.stencil_store,
            stencil_read_only: target.stencil_read_only,
        })),
        None => Ok(None),
    }
}
