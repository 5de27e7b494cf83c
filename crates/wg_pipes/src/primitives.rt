//! What vertices make.
ghost use Rattle.std.specs.Prelude.{◌≡◌};
ghost use Rattle.wg_model.specs.Rules.{first_unmet};
ghost use Rattle.wg_model.specs.FixedFunction.{makes_triangles, primitive_rules};

use wg_rules::STRIP_INDEX_FORMAT_IS_OF_STRIPS;
use wg_types::fixed::{PrimitiveState, Topology};

/// Whether vertices make triangles.
pub fn makes_triangles(topology: Topology) -> bool
    ensures { result ≡ makes_triangles topology }
{
    match topology {
        Topology::TriangleList | Topology::TriangleStrip => true,
        Topology::PointList | Topology::LineList | Topology::LineStrip => false,
    }
}

/// The first unmet rule of what vertices make (WebGPU, "Primitive State").
pub fn check_primitive(primitive: PrimitiveState) -> Option<u16>
    ensures { result ≡ first_unmet (primitive_rules primitive) }
{
    if primitive.strip_index_format.is_some() && !primitive.topology.is_strip() {
        return Some(STRIP_INDEX_FORMAT_IS_OF_STRIPS);
    }
    None
}
