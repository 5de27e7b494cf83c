//! The bytes of a sample of all color attachments of a pass.
ghost use Rattle.std.specs.Prelude.{◌≡◌};
ghost use Rattle.wg_model.specs.SampleBytes.{sample_fits};
ghost use Rattle.wg_render.specs.Attached.{formats_in};

use crate::targets::color_format;
use crate::views::ColorTarget;
use wg_formats::bytes_within;

/// Whether a sample of all color attachments takes no more bytes than may be, where that is bounded (WebGPU,
/// "Calculating color attachment bytes per sample"). What is resolved to is not looked at.
pub fn samples_fit(limit: Option<u32>, colors: &[Option<ColorTarget>]) -> bool
    ensures { result ≡ sample_fits limit (formats_in colors.now) }
{
    let Some(most) = limit else { return true };
    let mut bytes = 0;
    for color in colors {
        let Some(end) = bytes_within(bytes, color_format(color), most) else {
            return false;
        };
        bytes = end;
    }
    true
}
