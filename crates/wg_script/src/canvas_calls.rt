//! Reads the calls of canvases: a function for each, with its keys.
ghost use Rattle.wg_json.specs.View.{view};
ghost use Rattle.wg_script.specs.Giving.{Gives};
ghost use Rattle.wg_script.specs.CanvasCalls.{create_canvas_of, configure_canvas_of, current_texture_of, present_of};

use crate::calling::{canvas_asking, canvas_making};
use crate::calls::Call;
use crate::labels::made_in;
use crate::values::{Refusal, check_keys, name_at, reading, short_at, short_or};
use crate::words::word_at;
use std::alloc::Global;
use wg_json::Value;
use wg_types::canvases::{CanvasCall, CanvasFormat, CanvasOf};

/// The formats of canvases, by their words (WebGPU, "GPUCanvasConfiguration").
const FORMATS: [(&str, CanvasFormat); 3] = [
    ("rgba8unorm", CanvasFormat::Rgba8unorm),
    ("bgra8unorm", CanvasFormat::Bgra8unorm),
    ("rgba16float", CanvasFormat::Rgba16float),
];

/// The usage of a canvas's textures where none is asked for: RENDER_ATTACHMENT.
const RENDER_ATTACHMENT: u32 = 16;

/// Reads `createCanvas`.
#[tactic(auto, unfolding(crate::specs::CanvasCalls::create_canvas_of))]
pub fn create_canvas(alloc: Global, call: &Value<'_>) -> Result<Call, Refusal>
    ensures { Gives result (create_canvas_of (view call.now)) }
{
    reading!(call:
        need width = short_at("width");
        need height = short_at("height");
        need made = name_at(alloc, "as");
        => canvas_making(CanvasOf::Create { width, height }, made))
}

/// Reads `configureCanvas`.
#[tactic(auto, unfolding(crate::specs::CanvasCalls::configure_canvas_of))]
pub fn configure_canvas(alloc: Global, call: &Value<'_>) -> Result<Call, Refusal>
    ensures { Gives result (configure_canvas_of (view call.now)) }
{
    reading!(call:
        need canvas = name_at(alloc, "canvas");
        need format = word_at("format", &FORMATS);
        may usage = short_or("usage", RENDER_ATTACHMENT);
        => canvas_asking(CanvasOf::On { canvas, call: CanvasCall::Configure { format, usage } }))
}

/// Reads `currentTexture`.
#[tactic(auto, unfolding(crate::specs::CanvasCalls::current_texture_of))]
pub fn current_texture(alloc: Global, call: &Value<'_>) -> Result<Call, Refusal>
    ensures { Gives result (current_texture_of (view call.now)) }
{
    reading!(call:
        need canvas = name_at(alloc, "canvas");
        make made = made_in(alloc);
        => canvas_making(CanvasOf::On { canvas, call: CanvasCall::Current }, made))
}

/// Reads `present`.
#[tactic(auto, unfolding(crate::specs::CanvasCalls::present_of))]
pub fn present(alloc: Global, call: &Value<'_>) -> Result<Call, Refusal>
    ensures { Gives result (present_of (view call.now)) }
{
    reading!(call:
        need canvas = name_at(alloc, "canvas");
        => canvas_asking(CanvasOf::On { canvas, call: CanvasCall::Present }))
}
