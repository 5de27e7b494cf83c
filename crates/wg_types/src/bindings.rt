//! Bindings: what layouts ask for, what shaders use, and what bind groups bind.
ghost use Rattle.std.specs.Prelude.{◌≡◌, IfOk, map};
ghost use Rattle.wg_types.specs.Refs.{first_of};
ghost use Rattle.wg_types.specs.Bindings.{resource_named, map_entry, entries_named, entry_of};

use crate::NoMemory;
use crate::formats::{Format, SampleType};
use crate::handles::{BufferInfo, ObjRef};
use crate::items::Items;
use crate::refs::{Ask, Find};
use crate::textures::{ViewDim, ViewInfo};
use crate::wanted::Wanted;
use std::alloc::Global;

/// What a buffer is bound as (WebGPU, "GPUBufferBindingType").
#[derive(Clone, Copy, PartialEq, Eq)]
pub enum BufferBinding {
    Uniform,
    Storage,
    ReadOnlyStorage,
}

/// The kinds of samplers, and what a binding asks of one (WebGPU, "GPUSamplerBindingType").
#[derive(Clone, Copy, PartialEq, Eq)]
pub enum SamplerKind {
    Filtering,
    NonFiltering,
    Comparison,
}

/// How a storage texture is accessed (WebGPU, "GPUStorageTextureAccess").
#[derive(Clone, Copy, PartialEq, Eq)]
pub enum StorageAccess {
    ReadOnly,
    WriteOnly,
    ReadWrite,
}

/// What a binding holds (WebGPU, "Bind Group Layout Creation"): a buffer, with an offset that is given
/// when its group is set where it is `dynamic`, and of at least `min_size` bytes; a sampler; a texture
/// that is sampled, with four samples where it is `multi`; or a texture that is used as storage.
#[derive(Clone, Copy, PartialEq, Eq)]
pub enum BindingKind {
    Buffer {
        binding: BufferBinding,
        dynamic: bool,
        min_size: u64,
    },
    Sampler {
        sampler_type: SamplerKind,
    },
    Texture {
        sample: SampleType,
        dim: ViewDim,
        multi: bool,
    },
    StorageTexture {
        access: StorageAccess,
        format: Format,
        dim: ViewDim,
    },
}

/// An entry of a bind group layout (WebGPU, "GPUBindGroupLayoutEntry"): the number of a binding, the
/// stages that see it (WebGPU, "GPUShaderStage": vertex 1, fragment 2, compute 4), and what it holds.
#[derive(Clone, Copy, PartialEq, Eq)]
pub struct LayoutEntry {
    pub binding: u32,
    pub visibility: u32,
    pub kind: BindingKind,
}

/// The stages of a pipeline.
#[derive(Clone, Copy, PartialEq, Eq)]
pub enum Stage {
    Vertex,
    Fragment,
    Compute,
}

/// What a shader of a stage uses of a group (WebGPU, "GPUProgrammableStage"). Of a buffer neither an
/// offset nor a least size is looked at.
#[derive(Clone, Copy, PartialEq, Eq)]
pub struct IfaceEntry {
    pub group: u32,
    pub binding: u32,
    pub stage: Stage,
    pub kind: BindingKind,
}

/// What is bound, with objects as `R`: `size` bytes of a buffer from `offset` on, or what remains where
/// no size is given; a view of a texture; or a sampler (WebGPU, "GPUBindingResource").
#[derive(Drop)]
pub enum ResourceOf<R> {
    Buffer {
        buffer: R,
        offset: u64,
        size: Option<u64>,
    },
    View {
        view: R,
    },
    Sampler {
        sampler: R,
    },
}

/// An entry of a bind group that is asked for (WebGPU, "GPUBindGroupEntry").
#[derive(Drop)]
pub struct GroupEntryOf<R> {
    pub binding: u32,
    pub resource: ResourceOf<R>,
}

/// What a bind group binds, with what was known of it when the group was made.
#[derive(Clone, Copy, PartialEq, Eq)]
pub enum BoundResource {
    Buffer {
        buffer: ObjRef,
        buffer_info: BufferInfo,
        offset: u64,
        size: u64,
    },
    View {
        view: ObjRef,
        view_info: ViewInfo,
    },
    Sampler {
        sampler: ObjRef,
        sampler_info: SamplerKind,
    },
}

/// An entry of a bind group.
#[derive(Clone, Copy, PartialEq, Eq)]
pub struct BoundEntry {
    pub binding: u32,
    pub resource: BoundResource,
}

/// The entry of a binding in a layout, the first if there are several.
pub fn entry_of(entries: &[LayoutEntry], binding: u32) -> Option<LayoutEntry>
    ensures { result ≡ entry_of entries.now binding }
{
    for entry in entries {
        if entry.binding == binding {
            return Some(*entry);
        }
    }
    None
}

impl<R> GroupEntryOf<R> {
    /// What the object of the entry answers.
    pub fn ask<E: Drop, A: Ask<R, E>>(&self, asked: &A) -> Option<E>
        ensures { result ≡ A.asks asked.now (resource_named self.now.resource) }
    {
        match &self.resource {
            ResourceOf::Buffer { buffer, .. } => asked.ask(buffer, Wanted::Buffer),
            ResourceOf::View { view } => asked.ask(view, Wanted::View),
            ResourceOf::Sampler { sampler } => asked.ask(sampler, Wanted::Sampler),
        }
    }

    /// The entry with another object.
    pub fn map<S: Drop, F: Find<R, S>>(&self, find: &F) -> Result<GroupEntryOf<S>, NoMemory>
        ensures { IfOk result (λ entry. entry ≡ map_entry (F.finds find.now) self.now) }
    {
        let resource = match &self.resource {
            ResourceOf::Buffer {
                buffer,
                offset,
                size,
            } => ResourceOf::Buffer {
                buffer: find.find(buffer)?,
                offset: *offset,
                size: *size,
            },
            ResourceOf::View { view } => ResourceOf::View {
                view: find.find(view)?,
            },
            ResourceOf::Sampler { sampler } => ResourceOf::Sampler {
                sampler: find.find(sampler)?,
            },
        };
        Ok(GroupEntryOf {
            binding: self.binding,
            resource,
        })
    }
}

/// Asks the objects of the entries of a group.
pub fn each_entry<R, E: Drop, A: Ask<R, E>>(asked: &A, entries: &[GroupEntryOf<R>]) -> Option<E>
    ensures { result ≡ first_of (A.asks asked.now) (entries_named entries.now) }
{
    for entry in entries {
        if let Some(found) = entry.ask(asked) {
            return Some(found);
        }
    }
    None
}

/// The entries of a group with other objects.
pub fn map_entries<R, S: Drop, F: Find<R, S>>(
    alloc: Global,
    find: &F,
    entries: &[GroupEntryOf<R>],
) -> Result<Items<GroupEntryOf<S>>, NoMemory>
    ensures { IfOk result (λ found. found ≡ map (map_entry (F.finds find.now)) entries.now) }
{
    let mut found = Items::new(alloc);
    for entry in entries {
        found.push(entry.map(find)?)?;
    }
    Ok(found)
}
