//! What is asked of each entry of a bind group layout by itself.
ghost use Rattle.std.specs.Prelude.{◌≡◌, not, ◌&&◌, nat_lt, nat_le};
ghost use Rattle.std.specs.List.{list_all};
ghost use Rattle.wg_types.specs.declared.bindings.LayoutEntry.{LayoutEntry};
ghost use Rattle.wg_model.specs.Layouts.{vertex_stage, stages, is_seen_by, may_write, is_float, multi_fits, has_access, storage_fits};
ghost use Rattle.wg_model.specs.Textures.{is_cube, is_2d_view};

use wg_types::bindings::{BindingKind, BufferBinding, LayoutEntry, StorageAccess};
use wg_types::formats::{SampleType, StorageAccesses};
use wg_types::textures::ViewDim;

/// Whether a stage sees an entry.
pub fn is_seen_by(stage: u32, entry: &LayoutEntry) -> bool
    ensures { result ≡ is_seen_by stage entry.now }
{
    entry.visibility & stage != 0
}

/// Whether shaders may write what a binding holds.
pub fn may_write(kind: BindingKind) -> bool
    ensures { result ≡ may_write kind }
{
    match kind {
        BindingKind::Buffer { binding, .. } => match binding {
            BufferBinding::Storage => true,
            BufferBinding::Uniform | BufferBinding::ReadOnlyStorage => false,
        },
        BindingKind::StorageTexture { access, .. } => match access {
            StorageAccess::WriteOnly | StorageAccess::ReadWrite => true,
            StorageAccess::ReadOnly => false,
        },
        BindingKind::Sampler { .. } | BindingKind::Texture { .. } => false,
    }
}

fn is_float(sample: SampleType) -> bool
    ensures { result ≡ is_float sample }
{
    match sample {
        SampleType::Float => true,
        _ => false,
    }
}

fn is_cube(dim: ViewDim) -> bool
    ensures { result ≡ is_cube dim }
{
    match dim {
        ViewDim::Cube | ViewDim::CubeArray => true,
        _ => false,
    }
}

fn is_2d(dim: ViewDim) -> bool
    ensures { result ≡ is_2d_view dim }
{
    match dim {
        ViewDim::Two => true,
        _ => false,
    }
}

/// Whether a texture, if it has several samples, is 2D and not sampled as float.
fn multi_fits(kind: BindingKind) -> bool
    ensures { result ≡ multi_fits kind }
{
    match kind {
        BindingKind::Texture { sample, dim, multi } => !multi || is_2d(dim) && !is_float(sample),
        _ => true,
    }
}

fn has_access(access: StorageAccess, storage: StorageAccesses) -> bool
    ensures { result ≡ has_access access storage }
{
    match access {
        StorageAccess::ReadOnly => storage.read_only,
        StorageAccess::WriteOnly => storage.write_only,
        StorageAccess::ReadWrite => storage.read_write,
    }
}

/// Whether a storage texture is no cube and of a format that has the access.
fn storage_fits(kind: BindingKind) -> bool
    ensures { result ≡ storage_fits kind }
{
    match kind {
        BindingKind::StorageTexture {
            access,
            format,
            dim,
        } => !is_cube(dim) && has_access(access, format.row().storage),
        _ => true,
    }
}

/// Whether all bindings are below a number.
pub fn are_below(entries: &[LayoutEntry], most: u32) -> bool
    ensures { result ≡ list_all (λ (entry : LayoutEntry). nat_lt entry.binding most) entries.now }
{
    entries.iter().all(|entry| entry.binding < most)
}

/// Whether no entry is seen by stages that there are not.
pub fn are_of_stages(entries: &[LayoutEntry]) -> bool
    ensures { result ≡ list_all (λ (entry : LayoutEntry). nat_le entry.visibility stages) entries.now }
{
    entries.iter().all(|entry| entry.visibility <= 7)
}

/// Whether vertex shaders write nothing.
pub fn are_read_by_vertices(entries: &[LayoutEntry]) -> bool
    ensures { result ≡ list_all (λ (entry : LayoutEntry). not (is_seen_by vertex_stage entry && may_write entry.kind)) entries.now }
{
    entries
        .iter()
        .all(|entry| !(is_seen_by(1, entry) && may_write(entry.kind)))
}

/// Whether the textures with several samples may have them.
pub fn all_multi_fit(entries: &[LayoutEntry]) -> bool
    ensures { result ≡ list_all (λ (entry : LayoutEntry). multi_fits entry.kind) entries.now }
{
    entries.iter().all(|entry| multi_fits(entry.kind))
}

/// Whether the storage textures may be used as such.
pub fn all_storage_fit(entries: &[LayoutEntry]) -> bool
    ensures { result ≡ list_all (λ (entry : LayoutEntry). storage_fits entry.kind) entries.now }
{
    entries.iter().all(|entry| storage_fits(entry.kind))
}
