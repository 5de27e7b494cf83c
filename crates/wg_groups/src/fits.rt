//! Whether what a bind group binds is as its layout asks, of one entry.
ghost use Rattle.std.specs.Prelude.{◌≡◌};
ghost use Rattle.wg_model.specs.Buffers.{has_usage};
ghost use Rattle.wg_model.specs.Layouts.{is_uniform_binding};
ghost use Rattle.wg_model.specs.Equality.{same_view_dim};
ghost use Rattle.wg_types.specs.Formats.{same_format};
ghost use Rattle.wg_model.specs.Groups.{sort_fits, usage_asked, usage_fits, is_multiple, alignment_asked, size_limit, range_fits, size_fits, takes_sample, view_sampled, view_fits, storage_view_fits, takes_sampler, sampler_fits};
ghost use Rattle.wg_groups.specs.Tests.{passes};

use wg_formats::named_aspects;
use wg_types::bindings::{
    BindingKind, BoundEntry, BoundResource, BufferBinding, LayoutEntry, SamplerKind,
};
use wg_types::formats::{Format, SampleType};
use wg_types::limits::Limits;
use wg_types::textures::{ViewDim, ViewInfo};

/// Of the usages of buffers (WebGPU, "GPUBufferUsage").
const UNIFORM: u32 = 64;

const STORAGE: u32 = 128;

/// Of the usages of textures (WebGPU, "GPUTextureUsage").
const TEXTURE_BINDING: u32 = 4;

const STORAGE_BINDING: u32 = 8;

/// The tests of what a binding holds.
#[derive(Clone, Copy)]
pub enum Test {
    Sort,
    Usage,
    Range,
    Size,
    View,
    StorageView,
    Sampler,
}

/// Whether a usage has a bit.
fn has_usage(usage: u32, bit: u32) -> bool
    ensures { result ≡ has_usage usage bit }
{
    usage & bit != 0
}

/// Whether a binding is of a uniform buffer.
fn is_uniform_binding(binding: BufferBinding) -> bool
    ensures { result ≡ is_uniform_binding binding }
{
    match binding {
        BufferBinding::Uniform => true,
        BufferBinding::Storage | BufferBinding::ReadOnlyStorage => false,
    }
}

/// Whether two views are of the same dimension.
fn same_view_dim(a: ViewDim, b: ViewDim) -> bool
    ensures { result ≡ same_view_dim a b }
{
    a == b
}

/// Whether two formats are the same.
fn same_format(a: Format, b: Format) -> bool
    ensures { result ≡ same_format a b }
{
    a == b
}

/// Whether a buffer, sampler or view is held as the kind asks.
fn sort_fits(asked: BindingKind, resource: BoundResource) -> bool
    ensures { result ≡ sort_fits asked resource }
{
    match (asked, resource) {
        (BindingKind::Buffer { .. }, BoundResource::Buffer { .. }) => true,
        (BindingKind::Sampler { .. }, BoundResource::Sampler { .. }) => true,
        (BindingKind::Texture { .. }, BoundResource::View { .. }) => true,
        (BindingKind::StorageTexture { .. }, BoundResource::View { .. }) => true,
        _ => false,
    }
}

/// The usage that a binding asks of its buffer.
fn usage_asked(binding: BufferBinding) -> u32
    ensures { result ≡ usage_asked binding }
{
    match binding {
        BufferBinding::Uniform => UNIFORM,
        BufferBinding::Storage | BufferBinding::ReadOnlyStorage => STORAGE,
    }
}

/// Whether a buffer has the usage that the kind asks for.
fn usage_fits(asked: BindingKind, resource: BoundResource) -> bool
    ensures { result ≡ usage_fits asked resource }
{
    match (asked, resource) {
        (BindingKind::Buffer { binding, .. }, BoundResource::Buffer { buffer_info, .. }) => {
            has_usage(buffer_info.usage, usage_asked(binding))
        }
        _ => true,
    }
}

/// Whether a number is a multiple of another; of 0 only 0 is.
fn is_multiple(n: u64, of_number: u64) -> bool
    ensures { result ≡ is_multiple n of_number }
{
    n.is_multiple_of(of_number)
}

/// What the offset of a binding has to be a multiple of.
fn alignment_asked(limits: &Limits, binding: BufferBinding) -> u32
    ensures { result ≡ alignment_asked limits.now binding }
{
    if is_uniform_binding(binding) {
        limits.min_uniform_buffer_offset_alignment
    } else {
        limits.min_storage_buffer_offset_alignment
    }
}

/// The greatest size of a binding.
fn size_limit(limits: &Limits, binding: BufferBinding) -> u64
    ensures { result ≡ size_limit limits.now binding }
{
    if is_uniform_binding(binding) {
        limits.max_uniform_buffer_binding_size
    } else {
        limits.max_storage_buffer_binding_size
    }
}

/// Whether the offset of a range is aligned, the range is not empty, and the buffer has it.
fn range_fits(limits: &Limits, asked: BindingKind, resource: BoundResource) -> bool
    ensures { result ≡ range_fits limits.now asked resource }
{
    match (asked, resource) {
        (
            BindingKind::Buffer { binding, .. },
            BoundResource::Buffer {
                buffer_info,
                offset,
                size,
                ..
            },
        ) => {
            is_multiple(offset, u64::from(alignment_asked(limits, binding)))
                && size != 0
                && u128::from(offset) + u128::from(size) <= u128::from(buffer_info.size)
        }
        _ => true,
    }
}

/// Whether the size of a range is neither above the limit nor below what is asked, and that of a
/// storage buffer a multiple of 4.
fn size_fits(limits: &Limits, asked: BindingKind, resource: BoundResource) -> bool
    ensures { result ≡ size_fits limits.now asked resource }
{
    match (asked, resource) {
        (
            BindingKind::Buffer {
                binding,
                min_size,
                ..
            },
            BoundResource::Buffer { size, .. },
        ) => {
            size <= size_limit(limits, binding)
                && min_size <= size
                && (is_uniform_binding(binding) || size % 4 == 0)
        }
        _ => true,
    }
}

/// Whether a view that is sampled as `sampled` will do where `asked` is asked for.
fn takes_sample(asked: SampleType, sampled: SampleType) -> bool
    ensures { result ≡ takes_sample asked sampled }
{
    match (asked, sampled) {
        (SampleType::Float, SampleType::Float) => true,
        (
            SampleType::UnfilterableFloat,
            SampleType::Float | SampleType::UnfilterableFloat | SampleType::Depth,
        ) => true,
        (SampleType::Depth, SampleType::Depth) => true,
        (SampleType::Sint, SampleType::Sint) => true,
        (SampleType::Uint, SampleType::Uint) => true,
        _ => false,
    }
}

/// What a view is sampled as, if it has one aspect alone.
fn view_sampled(info: ViewInfo) -> Option<SampleType>
    ensures { result ≡ view_sampled info }
{
    let format = info.texture_info.format;
    match named_aspects(info.aspect, format) {
        [aspect] => format.row().sampled_as(*aspect),
        _ => None,
    }
}

/// Whether a view may be sampled as the kind asks.
fn view_fits(asked: BindingKind, resource: BoundResource) -> bool
    ensures { result ≡ view_fits asked resource }
{
    match (asked, resource) {
        (BindingKind::Texture { sample, dim, multi }, BoundResource::View { view_info, .. }) => {
            let Some(sampled) = view_sampled(view_info) else {
                return false;
            };
            has_usage(view_info.texture_info.usage, TEXTURE_BINDING)
                && takes_sample(sample, sampled)
                && same_view_dim(dim, view_info.dim)
                && multi == (view_info.texture_info.samples > 1)
        }
        _ => true,
    }
}

/// Whether a view may be used as storage as the kind asks.
fn storage_view_fits(asked: BindingKind, resource: BoundResource) -> bool
    ensures { result ≡ storage_view_fits asked resource }
{
    match (asked, resource) {
        (BindingKind::StorageTexture { format, dim, .. }, BoundResource::View { view_info, .. }) =>
            {
                has_usage(view_info.texture_info.usage, STORAGE_BINDING)
                    && view_info.mips == 1
                    && same_format(format, view_info.texture_info.format)
                    && same_view_dim(dim, view_info.dim)
            }
        _ => true,
    }
}

/// Whether a sampler of a kind will do where `asked` is asked for.
fn takes_sampler(asked: SamplerKind, sampler: SamplerKind) -> bool
    ensures { result ≡ takes_sampler asked sampler }
{
    match (asked, sampler) {
        (SamplerKind::Filtering, SamplerKind::Filtering | SamplerKind::NonFiltering) => true,
        (SamplerKind::NonFiltering, SamplerKind::NonFiltering) => true,
        (SamplerKind::Comparison, SamplerKind::Comparison) => true,
        _ => false,
    }
}

/// Whether a sampler is of a kind that the kind of binding takes.
fn sampler_fits(asked: BindingKind, resource: BoundResource) -> bool
    ensures { result ≡ sampler_fits asked resource }
{
    match (asked, resource) {
        (BindingKind::Sampler { sampler_type }, BoundResource::Sampler { sampler_info, .. }) => {
            takes_sampler(sampler_type, sampler_info)
        }
        _ => true,
    }
}

/// Whether what an entry binds passes a test of what is asked for.
pub fn passes(test: Test, limits: &Limits, asked: &LayoutEntry, entry: &BoundEntry) -> bool
    ensures { result ≡ passes test limits.now asked.now.kind entry.now.resource }
{
    match test {
        Test::Sort => sort_fits(asked.kind, entry.resource),
        Test::Usage => usage_fits(asked.kind, entry.resource),
        Test::Range => range_fits(limits, asked.kind, entry.resource),
        Test::Size => size_fits(limits, asked.kind, entry.resource),
        Test::View => view_fits(asked.kind, entry.resource),
        Test::StorageView => storage_view_fits(asked.kind, entry.resource),
        Test::Sampler => sampler_fits(asked.kind, entry.resource),
    }
}
