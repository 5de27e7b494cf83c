//! How many workgroups a dispatch has.
ghost use Rattle.std.specs.Prelude.{◌≡◌};
ghost use Rattle.wg_model.specs.Rules.{first_unmet};
ghost use Rattle.wg_model.specs.Compute.{count_rules};

use wg_rules::WORKGROUPS_ARE_WITHIN_LIMIT;

/// How many workgroups a dispatch may have in each dimension.
const MOST_WORKGROUPS: u32 = 65535;

/// The counts of a dispatch are within the limit.
pub fn check_counts(x: u32, y: u32, z: u32) -> Option<u16>
    ensures { result ≡ first_unmet (count_rules x y z) }
{
    if x <= MOST_WORKGROUPS && y <= MOST_WORKGROUPS && z <= MOST_WORKGROUPS {
        return None;
    }
    Some(WORKGROUPS_ARE_WITHIN_LIMIT)
}
