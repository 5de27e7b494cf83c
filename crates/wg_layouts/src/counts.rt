//! How many entries of a sort there may be, in a bind group layout and in those of a pipeline layout.
ghost use Rattle.std.specs.Prelude.{◌≡◌, nat_le};
ghost use Rattle.wg_model.specs.Layouts.{is_dynamic, stage_fits, stages_fit, dynamic_fits, all_entries};
ghost use Rattle.wg_layouts.specs.declared.counts.Counted.TheVariants.{SeenBy};
ghost use Rattle.wg_layouts.specs.Counted.{is_of, is_counted, counted, layout_entries, most_seen};

use crate::entries::is_seen_by;
use wg_types::bindings::{BindingKind, BufferBinding, LayoutEntry};
use wg_types::groups::GroupLayoutInfo;
use wg_types::limits::Limits;
use wg_types::shared::Shared;

/// The sorts of bindings that limits count. A storage buffer is also one that is only read.
#[derive(Clone, Copy)]
pub enum Sort {
    SampledTexture,
    Sampler,
    StorageBuffer,
    StorageTexture,
    UniformBuffer,
}

/// Which entries of a sort are counted: those that a stage sees, or those that are dynamic, whatever
/// stages see them.
#[derive(Clone, Copy)]
pub enum Counted {
    SeenBy(u32),
    Dynamic,
}

/// Whether a binding is of a sort.
fn is_of(sort: Sort, kind: BindingKind) -> bool
    ensures { result ≡ is_of sort kind }
{
    match (sort, kind) {
        (Sort::SampledTexture, BindingKind::Texture { .. }) => true,
        (Sort::Sampler, BindingKind::Sampler { .. }) => true,
        (Sort::StorageBuffer, BindingKind::Buffer { binding, .. }) => match binding {
            BufferBinding::Storage | BufferBinding::ReadOnlyStorage => true,
            BufferBinding::Uniform => false,
        },
        (Sort::StorageTexture, BindingKind::StorageTexture { .. }) => true,
        (Sort::UniformBuffer, BindingKind::Buffer { binding, .. }) => match binding {
            BufferBinding::Uniform => true,
            BufferBinding::Storage | BufferBinding::ReadOnlyStorage => false,
        },
        _ => false,
    }
}

/// Whether a binding takes a dynamic offset.
pub fn is_dynamic(kind: BindingKind) -> bool
    ensures { result ≡ is_dynamic kind }
{
    match kind {
        BindingKind::Buffer { dynamic, .. } => dynamic,
        _ => false,
    }
}

fn is_counted(which: Counted, sort: Sort, entry: &LayoutEntry) -> bool
    ensures { result ≡ is_counted which sort entry.now }
{
    let counts = match which {
        Counted::SeenBy(stage) => is_seen_by(stage, entry),
        Counted::Dynamic => is_dynamic(entry.kind),
    };
    counts && is_of(sort, entry.kind)
}

fn count(entries: &[LayoutEntry], which: Counted, sort: Sort) -> usize
    ensures { result ≡ counted which sort entries.now }
{
    entries
        .iter()
        .filter(|entry| is_counted(which, sort, entry))
        .count()
}

/// The entries of one layout, or of all layouts of a pipeline.
#[derive(Clone, Copy)]
pub enum LayoutEntries<'a> {
    One(&'a [LayoutEntry]),
    All(&'a [Shared<GroupLayoutInfo>]),
}

/// Whether the entries of all layouts have no more than `most` that are counted.
#[tactic(auto, using(crate::proofs::Sums::count_by_append))]
fn all_fit(layouts: &[Shared<GroupLayoutInfo>], which: Counted, sort: Sort, most: u32) -> bool
    ensures { result ≡ nat_le (counted which sort (all_entries layouts.now)) most }
{
    let mut left = u64::from(most);
    for layout in layouts {
        let found = count(layout.get().entries.get().as_slice(), which, sort) as u64;
        if found > left {
            return false;
        }
        left -= found;
    }
    true
}

/// Whether entries have no more than `most` that are counted.
fn fits(entries: LayoutEntries, which: Counted, sort: Sort, most: u32) -> bool
    ensures { result ≡ nat_le (counted which sort (layout_entries entries.entry)) most }
{
    match entries {
        LayoutEntries::One(entries) => count(entries, which, sort) as u64 <= u64::from(most),
        LayoutEntries::All(layouts) => all_fit(layouts, which, sort, most),
    }
}

/// How many entries of a sort a stage may see.
fn most_seen(limits: &Limits, sort: Sort) -> u32
    ensures { result ≡ most_seen limits.now sort }
{
    match sort {
        Sort::SampledTexture => limits.max_sampled_textures_per_shader_stage,
        Sort::Sampler => limits.max_samplers_per_shader_stage,
        Sort::StorageBuffer => limits.max_storage_buffers_per_shader_stage,
        Sort::StorageTexture => limits.max_storage_textures_per_shader_stage,
        Sort::UniformBuffer => limits.max_uniform_buffers_per_shader_stage,
    }
}

/// Whether a stage sees no more entries of a sort than it may.
fn sees_few(limits: &Limits, entries: LayoutEntries, stage: u32, sort: Sort) -> bool
    ensures { result ≡ nat_le (counted (SeenBy stage) sort (layout_entries entries.entry)) (most_seen limits.now sort) }
{
    fits(
        entries,
        Counted::SeenBy(stage),
        sort,
        most_seen(limits, sort),
    )
}

/// Whether a stage sees no more than it may.
fn stage_fits(limits: &Limits, entries: LayoutEntries, stage: u32) -> bool
    ensures { result ≡ stage_fits limits.now (layout_entries entries.entry) stage }
{
    sees_few(limits, entries, stage, Sort::SampledTexture)
        && sees_few(limits, entries, stage, Sort::Sampler)
        && sees_few(limits, entries, stage, Sort::StorageBuffer)
        && sees_few(limits, entries, stage, Sort::StorageTexture)
        && sees_few(limits, entries, stage, Sort::UniformBuffer)
}

/// Whether each stage sees no more than it may.
pub fn stages_fit(limits: &Limits, entries: LayoutEntries) -> bool
    ensures { result ≡ stages_fit limits.now (layout_entries entries.entry) }
{
    stage_fits(limits, entries, 1)
        && stage_fits(limits, entries, 2)
        && stage_fits(limits, entries, 4)
}

/// Whether no more buffers are dynamic than may be.
pub fn dynamic_fits(limits: &Limits, entries: LayoutEntries) -> bool
    ensures { result ≡ dynamic_fits limits.now (layout_entries entries.entry) }
{
    fits(
        entries,
        Counted::Dynamic,
        Sort::UniformBuffer,
        limits.max_dynamic_uniform_buffers_per_pipeline_layout,
    ) && fits(
        entries,
        Counted::Dynamic,
        Sort::StorageBuffer,
        limits.max_dynamic_storage_buffers_per_pipeline_layout,
    )
}
