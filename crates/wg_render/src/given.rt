//! What a command sets in render passes alone: a vertex buffer, or the index buffer.
ghost use Rattle.std.specs.Prelude.{◌≡◌};
ghost use Rattle.wg_model.specs.Render.{vertex_given, index_given};

use wg_formats::size_or_rest;
use wg_types::commands::Command;
use wg_types::vertex::IndexFormat;

/// The slot for which a command sets a range as a vertex buffer, with the size of that, or with none where it
/// unsets what is set there.
pub fn vertex_given(command: &Command) -> Option<(u32, Option<u64>)>
    ensures { result ≡ vertex_given command.now }
{
    match command {
        Command::SetVertexBuffer {
            slot,
            buffer,
            offset,
            size,
        } => match buffer {
            Some(buffer) => Some((*slot, Some(size_or_rest(buffer, *offset, *size)))),
            None => Some((*slot, None)),
        },
        _ => None,
    }
}

/// The format and the size of the range that a command sets as the index buffer, if it sets one.
pub fn index_given(command: &Command) -> Option<(IndexFormat, u64)>
    ensures { result ≡ index_given command.now }
{
    match command {
        Command::SetIndexBuffer {
            buffer,
            format,
            offset,
            size,
        } => Some((*format, size_or_rest(buffer, *offset, *size))),
        _ => None,
    }
}
