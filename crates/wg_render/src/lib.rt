//! Render passes and render bundles: the rules of the begin of a pass and of commands, what is set, and
//! what a whole pass or bundle touches.
#![tactic(auto)]

mod attachments;
mod bundles;
mod draws;
mod given;
mod pipelines;
mod queries;
mod samples;
mod state;
mod targets;
mod touches;
mod viewports;
mod views;

pub use attachments::check_begin;
pub use state::RenderState;
pub use views::{ColorTarget, DepthTarget, RenderBegin};
