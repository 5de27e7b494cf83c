//! When two bindings are of the same kind, and the bits of the stages that see them.
ghost use Rattle.std.specs.Prelude.{◌≡◌};
ghost use Rattle.wg_model.specs.Equality.{same_binding_kind};
ghost use Rattle.wg_model.specs.Pipelines.{stage_bit, same_use};

use wg_types::bindings::{BindingKind, Stage};
use wg_types::same::Same;

/// Whether two bindings are of the same kind, with the same parts.
pub fn same_binding_kind(a: BindingKind, b: BindingKind) -> bool
    ensures { result ≡ same_binding_kind a b }
{
    a.same(&b)
}

/// Whether a shader may use a binding of the one kind as the other: of a buffer neither dynamic offsets nor
/// the least size count.
pub fn same_use(a: BindingKind, b: BindingKind) -> bool
    ensures { result ≡ same_use a b }
{
    match (a, b) {
        (BindingKind::Buffer { binding: a, .. }, BindingKind::Buffer { binding: b, .. }) => a == b,
        _ => same_binding_kind(a, b),
    }
}

/// The bit of a stage in a visibility (WebGPU, "GPUShaderStage").
pub fn stage_bit(stage: Stage) -> u32
    ensures { result ≡ stage_bit stage }
{
    match stage {
        Stage::Vertex => 1,
        Stage::Fragment => 2,
        Stage::Compute => 4,
    }
}
