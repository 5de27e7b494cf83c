//! The words of bindings: of their kinds, of samplers, of what is sampled, of how storage textures are
//! accessed, and of the stages of a render pipeline.

use wg_types::bindings::{BufferBinding, SamplerKind, Stage, StorageAccess};
use wg_types::formats::SampleType;

/// What the key `kind` of a binding says. Its other keys hang on it.
#[derive(Clone, Copy)]
pub enum KindWord {
    Buffer(BufferBinding),
    Sampler,
    Texture,
    StorageTexture,
}

pub const KINDS: [(&str, KindWord); 6] = [
    ("uniform", KindWord::Buffer(BufferBinding::Uniform)),
    ("storage", KindWord::Buffer(BufferBinding::Storage)),
    (
        "read-only-storage",
        KindWord::Buffer(BufferBinding::ReadOnlyStorage),
    ),
    ("sampler", KindWord::Sampler),
    ("texture", KindWord::Texture),
    ("storage-texture", KindWord::StorageTexture),
];

pub const SAMPLERS: [(&str, SamplerKind); 3] = [
    ("filtering", SamplerKind::Filtering),
    ("non-filtering", SamplerKind::NonFiltering),
    ("comparison", SamplerKind::Comparison),
];

pub const SAMPLES: [(&str, SampleType); 5] = [
    ("float", SampleType::Float),
    ("unfilterable-float", SampleType::UnfilterableFloat),
    ("depth", SampleType::Depth),
    ("sint", SampleType::Sint),
    ("uint", SampleType::Uint),
];

pub const ACCESSES: [(&str, StorageAccess); 3] = [
    ("read-only", StorageAccess::ReadOnly),
    ("write-only", StorageAccess::WriteOnly),
    ("read-write", StorageAccess::ReadWrite),
];

pub const STAGES: [(&str, Stage); 2] = [("vertex", Stage::Vertex), ("fragment", Stage::Fragment)];
