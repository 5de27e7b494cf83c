//! Texture formats, extents of mip levels, the layout of texels in bytes, what handles know of buffers, textures,
//! query sets and bundles, what is known of a view, when bindings are of one kind, the bits of stages, what resources
//! take of a budget of bytes, and what samples of color targets take of theirs.
#![tactic(auto)]

mod aspects;
mod bindings;
mod extents;
mod handles;
mod layout;
mod memory;
mod samples;

pub use aspects::{
    aspects_meet, copy_compatible, has_depth, has_named, has_stencil, is_color, named_aspects,
    texel_from, texel_to,
};
pub use bindings::{same_binding_kind, same_use, stage_bit};
pub use extents::{
    covers_all, end_layer, extent, first_layer, has_no_texel, layer_count, spot_fits,
};
pub use handles::{
    buffer_of, known_bundle, no_buffer, no_texture, no_view, queries_of, same_reference,
    size_or_rest, texture_of, view_info, whole_spot,
};
pub use layout::{bytes_fit, required};
pub use memory::{bytes_of, texture_bytes};
pub use samples::{bytes_within, sample_fits, targets_sample_fits};
