//! The aspects of formats, and the bytes of a texel in copies.
ghost use Rattle.std.specs.Prelude.{◌≡◌, ◌≤◌, ◌==◌, IfSome};
ghost use Rattle.wg_types.specs.Formats.{row, format_number};
ghost use Rattle.wg_model.specs.Subresources.{is_aspect_of, aspects_meet};
ghost use Rattle.wg_model.specs.Formats.{has_depth, has_stencil, is_color, has_named, all_aspects, named_aspects, copied_aspect, bytes_to, bytes_from, texel_to, texel_from, linear, copy_compatible};

use wg_types::formats::{Format, FormatAspects};
use wg_types::parts::Aspect;
use wg_types::textures::AspectWord;

/// Whether the format has a color aspect.
pub fn is_color(format: Format) -> bool
    ensures { result ≡ is_color format }
{
    match format.row().aspects {
        FormatAspects::Color => true,
        _ => false,
    }
}

/// Whether there is a depth aspect.
pub fn has_depth(aspects: FormatAspects) -> bool
    ensures { result ≡ has_depth aspects }
{
    match aspects {
        FormatAspects::Depth | FormatAspects::DepthStencil => true,
        _ => false,
    }
}

/// Whether there is a stencil aspect.
pub fn has_stencil(aspects: FormatAspects) -> bool
    ensures { result ≡ has_stencil aspects }
{
    match aspects {
        FormatAspects::Stencil | FormatAspects::DepthStencil => true,
        _ => false,
    }
}

/// Whether the format has the aspects that a word asks for; every format has `All`.
pub fn has_named(word: AspectWord, format: Format) -> bool
    ensures { result ≡ has_named word (row format).aspects }
{
    match word {
        AspectWord::All => return true,
        AspectWord::DepthOnly => return has_depth(format.row().aspects),
        AspectWord::StencilOnly => return has_stencil(format.row().aspects),
    }
}

/// All aspects, in printed order.
fn all_aspects(aspects: FormatAspects) -> &'static [Aspect]
    ensures { result.now ≡ all_aspects aspects }
{
    match aspects {
        FormatAspects::Color => return &[Aspect::Color],
        FormatAspects::Depth => return &[Aspect::Depth],
        FormatAspects::DepthStencil => return &[Aspect::Depth, Aspect::Stencil],
        FormatAspects::Stencil => return &[Aspect::Stencil],
    }
}

/// The aspects of the format that a word names, in printed order: none where the format has not what
/// the word asks for.
pub fn named_aspects(word: AspectWord, format: Format) -> &'static [Aspect]
    ensures { result.now ≡ named_aspects word (row format).aspects }
{
    let aspects = format.row().aspects;
    match word {
        AspectWord::All => return all_aspects(aspects),
        AspectWord::DepthOnly => {
            if has_depth(aspects) {
                return &[Aspect::Depth];
            }
            return &[];
        }
        AspectWord::StencilOnly => {
            if has_stencil(aspects) {
                return &[Aspect::Stencil];
            }
            return &[];
        }
    }
}

/// Whether an aspect is one of these.
fn is_aspect_of(aspect: Aspect, aspects: &[Aspect]) -> bool
    ensures { result ≡ is_aspect_of aspect aspects.now }
{
    for other in aspects {
        if (*other as u8) == (aspect as u8) {
            return true;
        }
    }
    false
}

/// Whether two lists of aspects have one in common.
pub fn aspects_meet(aspects: &[Aspect], others: &[Aspect]) -> bool
    ensures { result ≡ aspects_meet aspects.now others.now }
{
    for aspect in aspects {
        if is_aspect_of(*aspect, others) {
            return true;
        }
    }
    false
}

/// The one aspect that a copy between a buffer and a texture takes; none where a word names several.
fn copied_aspect(word: AspectWord, format: Format) -> Option<Aspect>
    ensures { result ≡ copied_aspect word format }
{
    let named = named_aspects(word, format);
    if named.len() == 1 {
        return Some(named[0]);
    }
    None
}

/// The bytes of a texel of an aspect in a buffer, if the aspect is copied from a texture.
fn bytes_from(format: Format, aspect: Aspect) -> Option<u32>
    ensures bytes { result ≡ bytes_from format aspect }
    ensures some { IfSome result (λ bytes. 1 ≤ bytes) }
    ensures few { IfSome result (λ bytes. bytes ≤ 16) }
{
    match aspect {
        Aspect::Color => return Some(format.row().bytes),
        Aspect::Depth => match format {
            Format::Depth16Unorm => return Some(2),
            Format::Depth32Float => return Some(4),
            _ => return None,
        },
        Aspect::Stencil => return Some(1),
    }
}

/// The bytes of a texel of an aspect in a buffer, if the aspect is copied to a texture.
fn bytes_to(format: Format, aspect: Aspect) -> Option<u32>
    ensures bytes { result ≡ bytes_to format aspect }
    ensures some { IfSome result (λ bytes. 1 ≤ bytes) }
    ensures few { IfSome result (λ bytes. bytes ≤ 16) }
{
    match aspect {
        Aspect::Color => return Some(format.row().bytes),
        Aspect::Depth => {
            if let Format::Depth16Unorm = format {
                return Some(2);
            }
            return None;
        }
        Aspect::Stencil => return Some(1),
    }
}

/// The bytes that a texel of what a word names takes in a buffer, if it is copied from a texture of
/// the format (WebGPU, "copyTextureToBuffer").
pub fn texel_from(word: AspectWord, format: Format) -> Option<u32>
    ensures bytes { result ≡ texel_from word format }
    ensures some { IfSome result (λ bytes. 1 ≤ bytes) }
    ensures few { IfSome result (λ bytes. bytes ≤ 16) }
{
    match copied_aspect(word, format) {
        Some(aspect) => return bytes_from(format, aspect),
        None => return None,
    }
}

/// The bytes that a texel of what a word names takes in a buffer, if it is copied to a texture of the
/// format (WebGPU, "copyBufferToTexture", "writeTexture").
pub fn texel_to(word: AspectWord, format: Format) -> Option<u32>
    ensures bytes { result ≡ texel_to word format }
    ensures some { IfSome result (λ bytes. 1 ≤ bytes) }
    ensures few { IfSome result (λ bytes. bytes ≤ 16) }
{
    match copied_aspect(word, format) {
        Some(aspect) => return bytes_to(format, aspect),
        None => return None,
    }
}

/// The format without -srgb.
fn linear(format: Format) -> Format
    ensures { result ≡ linear format }
{
    match format {
        Format::Rgba8UnormSrgb => Format::Rgba8Unorm,
        _ => format,
    }
}

/// The place of a format in the table of formats.
fn format_number(format: Format) -> u32
    ensures { result ≡ format_number format }
{
    match format {
        Format::R8Unorm => 0,
        Format::Rg8Unorm => 1,
        Format::Rgba8Unorm => 2,
        Format::Rgba8UnormSrgb => 3,
        Format::Bgra8Unorm => 4,
        Format::R32Uint => 5,
        Format::R32Float => 6,
        Format::Rgba16Float => 7,
        Format::Rgba32Float => 8,
        Format::Depth16Unorm => 9,
        Format::Depth24Plus => 10,
        Format::Depth24PlusStencil8 => 11,
        Format::Depth32Float => 12,
        Format::Stencil8 => 13,
    }
}

/// Whether textures of the two formats are copied to one another: they are equal, or differ in -srgb
/// alone (WebGPU, "copy-compatible").
#[tactic(auto, unfolding(wg_model::specs::Formats::copy_compatible))]
pub fn copy_compatible(a: Format, b: Format) -> bool
    ensures { result ≡ copy_compatible a b }
{
    format_number(linear(a)) == format_number(linear(b))
}
