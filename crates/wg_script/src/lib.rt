//! The first reading of a script: from bytes to calls, or the first rule that the bytes break.
#![tactic(auto)]

mod binding_calls;
mod binding_entries;
mod binding_words;
mod bundle_calls;
mod call_reading;
mod calling;
mod calls;
mod canvas_calls;
mod draft;
mod fixed_function;
mod fixed_words;
mod labels;
mod limits;
mod lists;
mod name;
mod pass_calls;
mod query_calls;
mod reading;
mod render_calls;
mod render_entries;
mod render_words;
mod sampler_calls;
mod sampler_words;
mod texture_calls;
mod texture_words;
mod values;
mod words;

pub use calls::{BoundCall, Call, CallOf};
pub use draft::{
    BoundLane, BoundPhase, Lane, Phase, Phases, Place, Script, ScriptDraft, ScriptFault,
};
pub use name::Name;
pub use reading::read;
pub use wg_entry::NoMemory;
