//! What ends an encoder.
ghost use Rattle.std.specs.Prelude.{◌≡◌, true, Some, is_some};
ghost use Rattle.wg_desk.specs.Sent.{handed_over};

use wg_core::Event;
use wg_encoder::Recording;

/// What an event hands over that ends an encoder.
pub fn recording_in(event: Event) -> Recording
    requires { is_some (handed_over event) ≡ true }
    ensures { Some result ≡ handed_over event }
{
    match event {
        Event::Finish { recording, .. } | Event::FinishBundle { recording, .. } => recording,
        _ => unreachable!(),
    }
}
