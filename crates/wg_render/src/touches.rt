//! What the commands of render passes and of bundles touch.
ghost use Rattle.std.specs.Prelude.{◌≡◌, ◌++◌, Some, IfOk, OnOk};
ghost use Rattle.wg_model.specs.Commands.{size_or_rest};
ghost use Rattle.wg_model.specs.Queries.{occlusion_call, query_written, query_touches};
ghost use Rattle.wg_model.specs.Render.{bound_group_touches, input_touch, vertex_touches, input_touches, command_touches};

use crate::bundles::push_bundles;
use std::alloc::Global;
use wg_compute::{GroupGiven, bound, group_given, indirect_touch};
use wg_formats::size_or_rest;
use wg_layouts::{bound_touches, known_group};
use wg_types::NoMemory;
use wg_types::commands::Command;
use wg_types::handles::Handle;
use wg_types::items::Items;
use wg_types::parts::{AccessKind, Cells};
use wg_types::steps::{Touch, Touches};
use wg_types::usages::Usages;

/// How many bytes an indirect draw reads.
pub const DRAW_BYTES: u64 = 16;

/// How many bytes an indirect draw of indexes reads.
pub const DRAW_INDEXED_BYTES: u64 = 20;

/// What a group touches that is set: as much as where a pipeline runs that has the group's own layout. Null
/// touches nothing.
#[tactic(auto, using(crate::proofs::Groups::own_layout))]
fn group_touches(alloc: Global, given: &GroupGiven) -> Result<Touches, NoMemory>
    ensures { IfOk result (λ touches. touches ≡ bound_group_touches (Some given.now)) }
{
    let Some(group) = given.group else {
        return Ok(Items::new(alloc));
    };
    let Some(known) = known_group(group) else {
        return Ok(Items::new(alloc));
    };
    let layouts = [known.layout_info.share()?];
    let groups = [bound(given)?];
    bound_touches(alloc, &layouts, &groups)
}

/// The range of a buffer that draws read: read as an indirect call reads its own.
fn input_touch(buffer: &Handle, offset: u64, size: Option<u64>) -> Result<Touch, NoMemory>
    ensures { IfOk result (λ touch. touch ≡ input_touch buffer.now offset (size_or_rest buffer.now offset size)) }
{
    indirect_touch(buffer, offset, size_or_rest(buffer, offset, size))
}

/// Adds the range of a vertex buffer that is set, if one is.
fn push_vertex(
    touches: &mut Touches,
    buffer: &Option<Handle>,
    offset: u64,
    size: Option<u64>,
) -> Result<(), NoMemory>
    ensures { OnOk result (touches.new ≡ touches.old ++ vertex_touches buffer.now offset size) }
{
    if let Some(buffer) = buffer {
        touches.push(input_touch(buffer, offset, size)?)?;
    }
    Ok(())
}

/// Adds what a command reads of vertex, index and indirect buffers, and what bundles touch that it
/// executes.
fn push_inputs(touches: &mut Touches, command: &Command) -> Result<(), NoMemory>
    ensures { OnOk result (touches.new ≡ touches.old ++ input_touches command.now) }
{
    let touch = match command {
        Command::SetVertexBuffer {
            buffer,
            offset,
            size,
            ..
        } => return push_vertex(touches, buffer, *offset, *size),
        Command::SetIndexBuffer {
            buffer,
            offset,
            size,
            ..
        } => input_touch(buffer, *offset, *size)?,
        Command::DrawIndirect { buffer, offset } => indirect_touch(buffer, *offset, DRAW_BYTES)?,
        Command::DrawIndexedIndirect { buffer, offset } => {
            indirect_touch(buffer, *offset, DRAW_INDEXED_BYTES)?
        }
        Command::ExecuteBundles { bundles } => return push_bundles(touches, bundles.as_slice()),
        _ => return Ok(()),
    };
    touches.push(touch)?;
    Ok(())
}

/// A query that is begun, which is written. There is no set with one whose index is the last number, and
/// that is answered as want of memory.
pub fn query_written(object: u64, index: u32) -> Result<Touch, NoMemory>
    ensures { IfOk result (λ touch. touch ≡ query_written object index) }
{
    match index.checked_add(1) {
        Some(hi) => {
            let cells = Cells::Queries {
                object,
                lo: index,
                hi,
            };
            return Ok((cells, (Usages::QUERY_WRITE, AccessKind::Write)));
        }
        None => return Err(NoMemory),
    }
}

/// Adds the query that a command begins, of the query set of its pass.
fn push_query(
    touches: &mut Touches,
    queries: Option<(u64, u32)>,
    command: &Command,
) -> Result<(), NoMemory>
    ensures { OnOk result (touches.new ≡ touches.old ++ query_touches queries (occlusion_call command.now)) }
{
    let Command::BeginOcclusionQuery { index } = command else {
        return Ok(());
    };
    let Some((object, _)) = queries else {
        return Ok(());
    };
    touches.push(query_written(object, *index)?)?;
    Ok(())
}

/// What a command touches in a pass that has this query set, or none: all that is set counts, drawn or
/// not (WebGPU, "Resource Usages"). Ranges that end past every number, which no command has whose rules
/// are met, are answered as want of memory.
pub fn command_touches(
    alloc: Global,
    queries: Option<(u64, u32)>,
    command: &Command,
) -> Result<Touches, NoMemory>
    ensures { IfOk result (λ touches. touches ≡ command_touches queries command.now) }
{
    let mut touches = match group_given(command) {
        Some(given) => group_touches(alloc, &given)?,
        None => Items::new(alloc),
    };
    push_inputs(&mut touches, command)?;
    push_query(&mut touches, queries, command)?;
    Ok(touches)
}
