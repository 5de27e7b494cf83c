//! The query set of a render pass, and the end of the pass.
ghost use Rattle.std.specs.Prelude.{◌≡◌};
ghost use Rattle.wg_model.specs.Rules.{first_unmet};
ghost use Rattle.wg_model.specs.Queries.{set_given, set_of_pass, count_given, pass_end_rules};

use wg_formats::queries_of;
use wg_rules::EVERY_OCCLUSION_QUERY_HAS_ENDED;
use wg_types::commands::{Bracket, Command};
use wg_types::handles::Handle;

/// The number of a query set, and how many queries it has.
fn set_given(queries: &Handle) -> (u64, u32)
    ensures { result ≡ set_given queries.now }
{
    (queries.reference().number, queries_of(queries).count)
}

/// The same of the query set of a pass, if it has one (WebGPU, "Render Pass Encoder Creation").
pub fn set_of_pass(queries: &Option<Handle>) -> Option<(u64, u32)>
    ensures { result ≡ set_of_pass queries.now }
{
    match queries {
        Some(queries) => Some(set_given(queries)),
        None => None,
    }
}

/// How many queries the set of a pass has, if the pass has one.
pub fn count_given(set: Option<(u64, u32)>) -> Option<u32>
    ensures { result ≡ count_given set }
{
    match set {
        Some((_, count)) => Some(count),
        None => None,
    }
}

/// The rule of the end of a render pass, 311, where a query is active or none is (WebGPU, "end").
pub fn check_pass_end(active: bool, command: &Command) -> Option<u16>
    ensures { result ≡ first_unmet (pass_end_rules active command.now) }
{
    match command.bracket() {
        Bracket::EndPass => {
            if active {
                return Some(EVERY_OCCLUSION_QUERY_HAS_ENDED);
            }
            return None;
        }
        Bracket::BeginComputePass
        | Bracket::BeginRenderPass
        | Bracket::PushGroup
        | Bracket::PopGroup
        | Bracket::Neither => return None,
    }
}
