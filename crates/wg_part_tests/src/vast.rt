//! What no script can ask for: numbers past 2 to the 53, in buffers that are as large, levels past the last, and a
//! texture of four samples with several layers.
use wg_buffers::check_create;
use wg_copy::{check_write_buffer, check_write_texture};
use wg_formats::{end_layer, extent, required};
use wg_limits::default_limits;
use wg_textures::check_view;
use wg_types::formats::Format;
use wg_types::handles::BufferInfo;
use wg_types::textures::{
    AspectWord, DataLayout, TextureDim, TextureInfo, TextureSpot, ViewDesc, ViewDim,
};

/// The greatest multiple of 4 that has 64 bits.
const GREATEST: u64 = u64::MAX - 3;

const TEXTURE: TextureInfo = TextureInfo {
    size: [8, 8, 2],
    usage: 3,
    format: Format::Rgba8Unorm,
    dim: TextureDim::Two,
    mips: 1,
    samples: 1,
};

const START: TextureSpot = TextureSpot {
    mip: 0,
    origin: [0, 0, 0],
    aspect: AspectWord::All,
};

/// Two images as far apart as can be said, of one row of 4 texels each.
const LAYOUT: DataLayout = DataLayout {
    offset: 0,
    bytes_per_row: Some(4_294_967_040),
    rows_per_image: Some(4_294_967_295),
};

/// What they take: (2^32 - 256) * (2^32 - 1) + 16.
const BYTES: u64 = 18_446_742_969_902_956_816;

fn buffer(size: u64) -> BufferInfo {
    BufferInfo {
        size,
        usage: 12,
        mapped: false,
    }
}

#[test]
fn sums_past_every_number_fit_nothing(rt: HostRuntime) {
    let whole = buffer(u64::MAX);
    let size = [4, 1, 2];
    let rules = [
        check_write_buffer(&whole, GREATEST - 4, 4),
        check_write_buffer(&whole, GREATEST, 4),
        check_write_texture(&TEXTURE, &START, &LAYOUT, size, BYTES),
        check_write_texture(&TEXTURE, &START, &LAYOUT, size, BYTES - 1),
    ];
    assert!(rt; rules == [None, Some(202), None, Some(209)]);
}

#[test]
fn no_buffer_is_vast(rt: HostRuntime) {
    assert!(rt; check_create(&buffer(u64::MAX), &default_limits()) == Some(103));
}

#[test]
fn extents_and_layouts_may_be_vast(rt: HostRuntime) {
    let vast = u32::MAX;
    let texture = TextureInfo {
        size: [vast, vast, 6],
        ..TEXTURE
    };
    let extents = [
        extent(&texture, 30),
        extent(&texture, 32),
        extent(&texture, vast),
    ];
    assert!(rt; extents == [[3, 3, 6], [1, 1, 6], [1, 1, 6]]);
    let end = end_layer(TextureDim::Two, [0, 0, vast], [1, 1, vast]);
    let layout = DataLayout {
        offset: 0,
        bytes_per_row: Some(vast),
        rows_per_image: Some(vast),
    };
    let bytes = Some(79228162458924105385300197360);
    let needed = required(&layout, 16, [268435455, vast, vast]);
    assert!(rt; (end, needed) == (8589934590, bytes));
}

#[test]
fn a_cube_of_samples_is_refused(rt: HostRuntime) {
    let single = TextureInfo {
        size: [8, 8, 6],
        usage: 20,
        ..TEXTURE
    };
    let texture = TextureInfo {
        samples: 4,
        ..single
    };
    let view = ViewDesc {
        dim: ViewDim::Cube,
        aspect: AspectWord::All,
        base_mip: 0,
        mips: 1,
        base_layer: 0,
        layers: 6,
    };
    let rules = [check_view(&texture, &view), check_view(&single, &view)];
    assert!(rt; rules == [Some(126), None]);
}
