//! The subresources of views and of copies, in runs of layers, and the cells of these.
#![tactic(auto)]

ghost use Rattle.std.specs.Prelude.{◌≡◌, ◌++◌, ◌+◌, min, IfOk, OnOk};
ghost use Rattle.wg_types.specs.Textures.{depth};
ghost use Rattle.wg_rows.specs.Rows.{numbers};
ghost use Rattle.wg_model.specs.Formats.{named_aspects};
ghost use Rattle.wg_model.specs.Subresources.{level_runs, aspect_runs, view_runs, end_layer, texture_cells, run_cells, view_cells, layer_cells, copied_cells, ranges_meet, view_layers_end, view_mips_end, views_meet};
ghost use Rattle.wg_subres.specs.Has.{ViewsCover, CopiesCover, ViewCellsLie, CopiedCellsLie, ViewCellsAre, CopiedCellsAre, CopiesMeet, ViewsMeet, ViewsPrinted, CopiesPrinted, CellsPrinted};
ghost use Rattle.wg_subres.specs.Attached.{AttachedMeet};

use std::alloc::Global;
use wg_formats::{aspects_meet, end_layer, extent, first_layer, layer_count, named_aspects};
use wg_types::NoMemory;
use wg_types::items::Items;
use wg_types::parts::{Aspect, Cells, PartRun};
use wg_types::textures::{TextureDim, TextureInfo, TextureSpot, ViewInfo};

/// Runs of parts, in printed order.
pub type PartRuns = Items<PartRun>;

/// The end of a range that does not pass a count.
fn end_within(base: u32, count: u32, most: u32) -> u32
    ensures { result ≡ min (base + count) most }
{
    match base.checked_add(count) {
        Some(end) => {
            if end < most {
                return end;
            }
            return most;
        }
        None => return most,
    }
}

/// Adds the layers of each of a range of mip levels of an aspect.
#[tactic(auto, using(crate::proofs::Numbers::numbers_none))]
fn push_levels(
    runs: &mut PartRuns,
    object: u64,
    layers: (u32, u32),
    mips: (u32, u32),
    aspect: Aspect,
) -> Result<(), NoMemory>
    ensures { OnOk result (runs.new ≡ runs.old ++ level_runs object layers.0 layers.1 (numbers mips.0 mips.1) aspect) }
{
    let mut mip = mips.0;
    while mip < mips.1 {
        runs.push(PartRun::Texture {
            object,
            aspect,
            mip,
            lo: layers.0,
            hi: layers.1,
        })?;
        mip += 1;
    }
    Ok(())
}

/// The layers of each of a range of mip levels of each aspect.
fn aspect_runs(
    alloc: Global,
    object: u64,
    layers: (u32, u32),
    mips: (u32, u32),
    aspects: &[Aspect],
) -> Result<PartRuns, NoMemory>
    ensures { IfOk result (λ runs. runs ≡ aspect_runs object layers.0 layers.1 (numbers mips.0 mips.1) aspects.now) }
{
    let mut runs = Items::new(alloc);
    for aspect in aspects {
        push_levels(&mut runs, object, layers, mips, *aspect)?;
    }
    Ok(runs)
}

/// Where the layers of a view end that its texture has.
fn layers_end(view: &ViewInfo) -> u32
    ensures { result ≡ view_layers_end view.now }
{
    end_within(
        view.base_layer,
        view.layers,
        layer_count(&view.texture_info),
    )
}

/// Where the mip levels of a view end that its texture has.
fn mips_end(view: &ViewInfo) -> u32
    ensures { result ≡ view_mips_end view.now }
{
    end_within(view.base_mip, view.mips, view.texture_info.mips)
}

/// The subresources of a view that its texture has, a run for each aspect and mip level; what lies past
/// the texture's end adds none (WebGPU, "Texture Views").
#[tactic(auto, unfolding(wg_model::specs::Subresources::view_runs))]
pub fn of_view(alloc: Global, view: &ViewInfo) -> Result<PartRuns, NoMemory>
    ensures { IfOk result (λ runs. runs ≡ view_runs view.now) }
{
    let end = layers_end(view);
    if view.base_layer >= end {
        return Ok(Items::new(alloc));
    }
    let mips = (view.base_mip, mips_end(view));
    let aspects = named_aspects(view.aspect, view.texture_info.format);
    aspect_runs(
        alloc,
        view.texture.number,
        (view.base_layer, end),
        mips,
        aspects,
    )
}

/// Whether two ranges have a number in common.
fn ranges_meet(a: (u32, u32), b: (u32, u32)) -> bool
    ensures { result ≡ ranges_meet a.0 a.1 b.0 b.1 }
{
    a.0.max(b.0) < a.1.min(b.1)
}

/// Whether two views have a subresource in common.
#[tactic(auto, unfolding(wg_model::specs::Subresources::views_meet))]
pub fn views_meet(a: &ViewInfo, b: &ViewInfo) -> bool
    ensures { result ≡ views_meet a.now b.now }
{
    let aspects = named_aspects(a.aspect, a.texture_info.format);
    let others = named_aspects(b.aspect, b.texture_info.format);
    a.texture.number == b.texture.number
        && aspects_meet(aspects, others)
        && ranges_meet((a.base_mip, mips_end(a)), (b.base_mip, mips_end(b)))
        && ranges_meet((a.base_layer, layers_end(a)), (b.base_layer, layers_end(b)))
}

/// The layer past the last of a copy. One past every number is in no texture, and no copy whose place
/// is in its texture has it; it is answered as want of memory.
fn last_layer(dim: TextureDim, origin: [u32; 3], size: [u32; 3]) -> Result<u32, NoMemory>
    ensures { IfOk result (λ end. end ≡ end_layer dim origin size) }
{
    let end = end_layer(dim, origin, size);
    if end > 4294967295 {
        return Err(NoMemory);
    }
    Ok(end as u32)
}

/// The cells of a range of layers of a mip level and aspect, of which a 3D texture has a range of slices.
fn texture_cells(
    dim: TextureDim,
    object: u64,
    aspect: Aspect,
    mip: u32,
    layers: (u32, u32),
    slices: (u32, u32),
) -> Cells
    ensures { result ≡ texture_cells dim object aspect mip layers.0 layers.1 slices.0 slices.1 }
{
    match (dim, aspect) {
        (TextureDim::Three, Aspect::Color) => Cells::Slices {
            object,
            mip,
            lo: slices.0,
            hi: slices.1,
        },
        _ => Cells::Layers {
            object,
            aspect,
            mip,
            lo: layers.0,
            hi: layers.1,
        },
    }
}

/// The cells of a range of layers, or of slices, of each aspect.
fn layer_cells(
    alloc: Global,
    dim: TextureDim,
    object: u64,
    mip: u32,
    layers: (u32, u32),
    slices: (u32, u32),
    aspects: &[Aspect],
) -> Result<Items<Cells>, NoMemory>
    ensures { IfOk result (λ cells. cells ≡ layer_cells dim object mip layers.0 layers.1 slices.0 slices.1 aspects.now) }
{
    let mut cells = Items::new(alloc);
    if layers.0 >= layers.1 {
        return Ok(cells);
    }
    for aspect in aspects {
        cells.push(texture_cells(dim, object, *aspect, mip, layers, slices))?;
    }
    Ok(cells)
}

/// The cells of a run of layers of a texture: of a 3D one all slices of the mip level.
fn run_cells(info: &TextureInfo, run: PartRun) -> Cells
    ensures { result ≡ run_cells info.now run }
{
    match run {
        PartRun::Buffer { object } => Cells::Bytes {
            object,
            lo: 0,
            hi: 0,
        },
        PartRun::Queries { object } => Cells::Queries {
            object,
            lo: 0,
            hi: 0,
        },
        PartRun::Texture {
            object,
            aspect,
            mip,
            lo,
            hi,
        } => {
            let slices = extent(info, mip)[2];
            texture_cells(info.dim, object, aspect, mip, (lo, hi), (0, slices))
        }
    }
}

/// The cells of a view, a run for each aspect and mip level.
pub fn cells_of_view(alloc: Global, view: &ViewInfo) -> Result<Items<Cells>, NoMemory>
    ensures { IfOk result (λ cells. cells ≡ view_cells view.now) }
{
    let runs = of_view(alloc, view)?;
    let mut cells = Items::new(alloc);
    for run in runs.as_slice() {
        cells.push(run_cells(&view.texture_info, *run))?;
    }
    Ok(cells)
}

/// The slice past the last of a copy. One past every number is in no texture, as with layers.
fn last_slice(origin: [u32; 3], size: [u32; 3]) -> Result<u32, NoMemory>
    ensures { IfOk result (λ end. end ≡ depth origin + depth size) }
{
    match origin[2].checked_add(size[2]) {
        Some(end) => return Ok(end),
        None => return Err(NoMemory),
    }
}

/// The cells that a copy accesses in a texture, a run of layers for each aspect that it names, or of a 3D
/// texture a run of slices (WebGPU, "Texel Copies"). A copy whose layers or slices pass every number is
/// answered as want of memory; its place is in no texture.
#[tactic(auto, unfolding(wg_model::specs::Subresources::copied_cells))]
pub fn cells_of_copy(
    alloc: Global,
    texture: u64,
    info: &TextureInfo,
    spot: &TextureSpot,
    size: [u32; 3],
) -> Result<Items<Cells>, NoMemory>
    ensures { IfOk result (λ cells. cells ≡ copied_cells texture info.now spot.now size) }
{
    let end = last_layer(info.dim, spot.origin, size)?;
    let layers = (first_layer(info.dim, spot.origin), end);
    let slices = (spot.origin[2], last_slice(spot.origin, size)?);
    layer_cells(
        alloc,
        info.dim,
        texture,
        spot.mip,
        layers,
        slices,
        named_aspects(spot.aspect, info.format),
    )
}

/// The runs of a view cover just the subresources that the view has, in which its cells lie, and those
/// of a copy just what the copy has, in which the cells lie that it accesses. A view has, and a copy
/// accesses, just the cells of these that are layers or, of a 3D texture, slices in their range. Two copies within one
/// texture meet exactly where some subresource is in both, and so do two views. Two attachments meet
/// exactly where some cell is in both.
pub fn runs_cover()
    ensures views { ViewsCover }
    ensures copies { CopiesCover }
    ensures view_cells { ViewCellsLie }
    ensures cells { CopiedCellsLie }
    ensures all_of_view { ViewCellsAre }
    ensures all_of_copy { CopiedCellsAre }
    ensures meet { CopiesMeet }
    ensures views_meet { ViewsMeet }
    ensures attached_meet { AttachedMeet }
{}

/// Where all runs of a view are used in one way they are in printed form, and so are the runs of a copy
/// and, where it has a texel, the cells that it accesses.
pub fn runs_are_printed()
    ensures views { ViewsPrinted }
    ensures copies { CopiesPrinted }
    ensures cells { CellsPrinted }
{}
