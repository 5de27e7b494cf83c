//! The rules of copies, of clears, of resolving query sets and of queue writes.
#![tactic(auto)]

mod buffers;
mod queries;
mod texels;

ghost use Rattle.std.specs.Prelude.{◌≡◌};
ghost use Rattle.wg_model.specs.Rules.{first_unmet};
ghost use Rattle.wg_model.specs.Commands.{own_rules, buffer_of, texture_of};
ghost use Rattle.wg_model.specs.Equality.{same_reference};
ghost use Rattle.wg_model.specs.TexelCopies.{whole_spot};

pub use buffers::check_write_buffer;
pub use texels::check_write_texture;
use wg_formats::{buffer_of, same_reference, size_or_rest, texture_of, whole_spot};
use wg_types::commands::Command;

/// The first unmet rule of a command (WebGPU, "Copy Commands", "Clear Commands" and "Queries"), but for
/// those on the objects that it names and those that look at the commands before it. A command that
/// neither copies, clears nor resolves has none.
pub fn check(command: &Command) -> Option<u16>
    ensures { result ≡ first_unmet (own_rules command.now) }
{
    match command {
        Command::CopyBufferToBuffer {
            source,
            source_offset,
            target,
            target_offset,
            size,
        } => return buffers::check_copy(source, *source_offset, target, *target_offset, *size),
        Command::CopyBufferToTexture {
            buffer,
            layout,
            texture,
            spot,
            size,
        } => {
            let from = buffer_of(buffer);
            let to = texture_of(texture);
            return texels::check_to_texture(&from, layout, &to, spot, *size);
        }
        Command::CopyTextureToBuffer {
            buffer,
            layout,
            texture,
            spot,
            size,
        } => {
            let from = texture_of(texture);
            let to = buffer_of(buffer);
            return texels::check_to_buffer(&to, layout, &from, spot, *size);
        }
        Command::CopyTextureToTexture {
            source,
            source_mip,
            source_origin,
            target,
            target_mip,
            target_origin,
            size,
        } => {
            let same = same_reference(source.reference(), target.reference());
            let from = whole_spot(*source_mip, *source_origin);
            let to = whole_spot(*target_mip, *target_origin);
            return texels::check_between(
                same,
                &texture_of(source),
                &from,
                &texture_of(target),
                &to,
                *size,
            );
        }
        Command::ClearBuffer {
            buffer,
            offset,
            size,
        } => {
            let size = size_or_rest(buffer, *offset, *size);
            return buffers::check_clear(buffer, *offset, size);
        }
        Command::ResolveQuerySet {
            queries,
            first,
            count,
            buffer,
            offset,
        } => return queries::check_resolve(queries, *first, *count, buffer, *offset),
        Command::BeginComputePass
        | Command::BeginRenderPass { .. }
        | Command::PushDebugGroup
        | Command::PopDebugGroup
        | Command::InsertDebugMarker
        | Command::End
        | Command::SetPipeline { .. }
        | Command::SetBindGroup { .. }
        | Command::Dispatch { .. }
        | Command::DispatchIndirect { .. }
        | Command::SetVertexBuffer { .. }
        | Command::SetIndexBuffer { .. }
        | Command::Draw { .. }
        | Command::DrawIndexed { .. }
        | Command::DrawIndirect { .. }
        | Command::DrawIndexedIndirect { .. }
        | Command::BeginOcclusionQuery { .. }
        | Command::EndOcclusionQuery
        | Command::ExecuteBundles { .. }
        | Command::SetViewport { .. }
        | Command::SetScissorRect { .. }
        | Command::SetBlendConstant
        | Command::SetStencilReference => return None,
    }
}
