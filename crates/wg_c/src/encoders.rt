//! The exports that make encoders, end them and close them.
ghost use Rattle.std.specs.Prelude.{Some};
ghost use Rattle.wg_types.specs.declared.requests.RequestOf.TheVariants as request;
ghost use Rattle.wg_told.specs.Asked as asked;
ghost use Rattle.wg_c.specs.Exports.{ClosesEncoder, Finishes, Makes, TellsLate};

use crate::boundary::{close, finish, late, make};
use crate::encoder::Encoder;
use crate::sealed::Device;
use std::alloc::Global;
use wg_told::flats::FlatBundle;
use wg_told::{ToldReply, requests};
use wg_types::requests::RequestOf;

/// Makes an encoder.
#[unsafe(no_mangle)]
pub extern "C" fn wethlorn_create_encoder(
    alloc: Global,
    device: &mut Device,
    encoder: &mut Encoder,
    out: &mut ToldReply,
) -> u32
    ensures { Makes (Some request.CreateEncoder) device.old.inside device.new.inside encoder.old.inside encoder.new.inside out.old out.new result }
{
    make(
        device,
        encoder,
        alloc,
        Ok(Some(RequestOf::CreateEncoder)),
        out,
    )
}

/// Makes a bundle encoder.
#[unsafe(no_mangle)]
pub extern "C" fn wethlorn_create_bundle_encoder(
    alloc: Global,
    device: &mut Device,
    desc: &FlatBundle,
    colors: &[u32],
    encoder: &mut Encoder,
    out: &mut ToldReply,
) -> u32
    ensures { Makes (asked.create_bundle_encoder desc.now colors.now) device.old.inside device.new.inside encoder.old.inside encoder.new.inside out.old out.new result }
{
    make(
        device,
        encoder,
        alloc,
        requests::create_bundle_encoder(alloc, desc, colors),
        out,
    )
}

/// Ends an encoder or a bundle encoder.
#[unsafe(no_mangle)]
pub extern "C" fn wethlorn_finish(
    alloc: Global,
    device: &mut Device,
    encoder: &mut Encoder,
    out: &mut ToldReply,
) -> u32
    ensures { Finishes device.old.inside device.new.inside encoder.old.inside encoder.new.inside out.old out.new result }
{
    finish(device, encoder, alloc, out)
}

/// Tells a device that a command came late on an encoder of it.
#[unsafe(no_mangle)]
pub extern "C" fn wethlorn_late(
    alloc: Global,
    device: &mut Device,
    encoder: &mut Encoder,
    out: &mut ToldReply,
) -> u32
    ensures { TellsLate device.old.inside device.new.inside encoder.old.inside encoder.new.inside out.old out.new result }
{
    late(device, encoder, alloc, out)
}

/// Closes an encoder.
#[unsafe(no_mangle)]
pub extern "C" fn wethlorn_close_encoder(alloc: Global, encoder: &mut Encoder) -> u32
    ensures { ClosesEncoder encoder.old.inside encoder.new.inside result }
{
    close(encoder, alloc)
}
