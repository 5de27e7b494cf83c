//! The views that are attached to a render pass, as their handles know them.
ghost use Rattle.std.specs.Prelude.{◌≡◌, option_copied};
ghost use Rattle.wg_model.specs.Attachments.{view_in, attached_view, attachment_of};

use wg_formats::no_view;
use wg_types::handles::{Handle, Info};
use wg_types::render::{ColorTargetOf, DepthTargetOf, RenderBeginOf};
use wg_types::textures::ViewInfo;

/// What a render pass begins with, as its caller holds the views.
pub type RenderBegin = RenderBeginOf<Handle>;

/// A color attachment, as its caller holds the views.
pub type ColorTarget = ColorTargetOf<Handle>;

/// A depth and stencil attachment, as its caller holds the view.
pub type DepthTarget = DepthTargetOf<Handle>;

/// What is known of a view, if it is one.
fn view_in(info: &Info) -> Option<&ViewInfo>
    ensures { option_copied result ≡ view_in info.now }
{
    match info {
        Info::View(view) => Some(view),
        _ => None,
    }
}

/// What a handle knows of a view, which of an invalid one is nothing.
pub fn attached_view(handle: &Handle) -> Option<&ViewInfo>
    ensures { option_copied result ≡ attached_view handle.now }
{
    if !handle.valid() {
        return None;
    }
    view_in(handle.info())
}

/// What a handle of a view knows of it, where it is valid.
pub fn view_of(handle: &Handle) -> ViewInfo
    ensures { result ≡ attachment_of handle.now }
{
    match attached_view(handle) {
        Some(view) => *view,
        None => no_view(),
    }
}
