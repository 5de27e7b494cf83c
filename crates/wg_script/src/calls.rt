ghost use Rattle.std.specs.Prelude.{◌≡◌, IfOk};
ghost use Rattle.wg_script.specs.CallOf.{map_call};

use crate::NoMemory;
use crate::name::Name;
use std::alloc::Global;
use wg_types::canvases::CanvasOf;
use wg_types::commands::CommandOf;
use wg_types::refs::{self, Find};
use wg_types::requests::RequestOf;

/// A call of a script, with its names as `R`. A recording call stands on an encoder or a pass; a call of
/// a canvas may ask the device, and any other does. The key `as` is `made`.
#[derive(Drop)]
pub enum CallOf<R> {
    Record {
        on: R,
        command: CommandOf<R>,
        made: Option<R>,
    },
    Ask {
        request: RequestOf<R>,
        made: Option<R>,
    },
    Canvas {
        call: CanvasOf<R>,
        made: Option<R>,
    },
}

/// A call as a script gives it.
pub type Call = CallOf<Name>;

/// A call with slots in place of its names. The names that calls make are numbered from 0 in reading
/// order, and a name's slot is its number.
pub type BoundCall = CallOf<u32>;

impl<R> CallOf<R> {
    /// The call with what stands for each name in place of it.
    pub fn map<S: Drop, F: Find<R, S>>(
        &self,
        alloc: Global,
        find: &F,
    ) -> Result<CallOf<S>, NoMemory>
        ensures { IfOk result (λ call. call ≡ map_call (F.finds find.now) self.now) }
    {
        match self {
            CallOf::Record { on, command, made } => Ok(CallOf::Record {
                on: find.find(on)?,
                command: command.map(alloc, find)?,
                made: refs::map_maybe(find, made)?,
            }),
            CallOf::Ask { request, made } => Ok(CallOf::Ask {
                request: request.map(alloc, find)?,
                made: refs::map_maybe(find, made)?,
            }),
            CallOf::Canvas { call, made } => Ok(CallOf::Canvas {
                call: call.map(find)?,
                made: refs::map_maybe(find, made)?,
            }),
        }
    }
}
