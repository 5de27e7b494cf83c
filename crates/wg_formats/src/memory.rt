//! What resources take of a budget of bytes.
ghost use Rattle.std.specs.Prelude.{◌≡◌, ◌^◌, ◌≤◌, IfSome, IfNone};
ghost use Rattle.wg_model.specs.Memory.{level_bytes, texture_bytes, bytes_of};

use crate::extents::extent;
use wg_types::handles::Info;
use wg_types::textures::TextureInfo;

/// How many bytes a mip level takes; none where no 64-bit number holds that. The count of samples fits
/// 128 bits whatever the texture, so only the bytes of all of them may be too many.
fn level_bytes(info: TextureInfo, mip: u32) -> Option<u64>
    ensures some { IfSome result (λ bytes. bytes ≡ level_bytes info mip) }
    ensures none { IfNone result (2 ^ 64 ≤ level_bytes info mip) }
{
    let [width, height, depth] = extent(&info, mip);
    let texels = u128::from(width) * u128::from(height) * u128::from(depth);
    let samples = texels * u128::from(info.samples);
    let bytes = samples.checked_mul(u128::from(info.format.row().bytes))?;
    u64::try_from(bytes).ok()
}

/// How many bytes a texture takes over all its mip levels; none where no 64-bit number holds that.
#[tactic(auto, unfolding(wg_model::specs::Memory::texture_bytes))]
pub fn texture_bytes(info: &TextureInfo) -> Option<u64>
    ensures some { IfSome result (λ bytes. bytes ≡ texture_bytes info.now) }
    ensures none { IfNone result (2 ^ 64 ≤ texture_bytes info.now) }
{
    let mut bytes: u64 = 0;
    for mip in 0..info.mips {
        let level = level_bytes(*info, mip)?;
        bytes = bytes.checked_add(level)?;
    }
    Some(bytes)
}

/// How many bytes an object takes of the budget: a buffer its size, a texture those of all its mip
/// levels, a query set those of the results of its queries, and what is no resource none; `None` where no
/// 64-bit number holds that.
pub fn bytes_of(info: &Info) -> Option<u64>
    ensures some { IfSome result (λ bytes. bytes ≡ bytes_of info.now) }
    ensures none { IfNone result (2 ^ 64 ≤ bytes_of info.now) }
{
    match info {
        Info::Buffer(info) => Some(info.size),
        Info::Texture(info) => texture_bytes(info),
        Info::Queries(info) => Some(8 * u64::from(info.count)),
        Info::View(_)
        | Info::Sampler(_)
        | Info::GroupLayout(_)
        | Info::PipelineLayout(_)
        | Info::Group(_)
        | Info::Compute(_)
        | Info::Render(_)
        | Info::Encoder
        | Info::BundleEncoder(_)
        | Info::CommandBuffer
        | Info::Bundle(_) => Some(0),
    }
}
