//! The rules of bind group layouts, of pipeline layouts and of the layouts that are got of pipelines, when
//! two bind group layouts are equivalent, and the bind groups that are set: their rules, and what they
//! touch.
#![tactic(auto)]

mod bindings;
mod bound;
mod checks;
mod counts;
mod distinct;
mod entries;
mod equivalence;
mod overlaps;
mod places;
mod setting;
mod touching;

pub use bound::check_bound;
pub use checks::{check_get_layout, check_group_layout, check_pipeline_layout, check_together};
pub use equivalence::equivalent;
pub use setting::{
    check_set, check_unset, group_in, is_automatic, known_group, known_layouts, layouts_in,
    owner_of,
};
pub use touching::bound_touches;
