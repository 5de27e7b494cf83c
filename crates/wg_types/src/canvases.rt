//! Calls of canvases.
ghost use Rattle.std.specs.Prelude.{◌≡◌, IfOk};
ghost use Rattle.wg_types.specs.Canvases.{kind_shown, kind_made, map_canvas, named};
ghost use Rattle.wg_types.specs.Refs.{first_of};

use crate::NoMemory;
use crate::refs::{Ask, Find};
use crate::wanted::{Kind, Wanted};

/// The formats of canvases (WebGPU, "GPUCanvasConfiguration").
#[derive(Clone, Copy, PartialEq, Eq)]
pub enum CanvasFormat {
    Rgba8unorm,
    Bgra8unorm,
    Rgba16float,
}

/// What is asked of a canvas.
#[derive(Clone, Copy, PartialEq, Eq)]
pub enum CanvasCall {
    Configure { format: CanvasFormat, usage: u32 },
    Current,
    Present,
}

/// A call that makes a canvas, or asks something of one.
#[derive(Drop)]
pub enum CanvasOf<R> {
    Create { width: u32, height: u32 },
    On { canvas: R, call: CanvasCall },
}

impl CanvasCall {
    /// The kind of what the call makes that has a name, if it makes something.
    pub fn kind_shown(self) -> Option<Kind>
        ensures { result ≡ kind_shown self }
    {
        match self {
            CanvasCall::Current => Some(Kind::CanvasTexture),
            CanvasCall::Configure { .. } | CanvasCall::Present => None,
        }
    }
}

impl<R> CanvasOf<R> {
    /// The kind of what the call makes that has a name, if it makes something.
    pub fn kind_made(&self) -> Option<Kind>
        ensures { result ≡ kind_made self.now }
    {
        match self {
            CanvasOf::Create { .. } => Some(Kind::Canvas),
            CanvasOf::On { call, .. } => call.kind_shown(),
        }
    }

    /// The answer of the canvas that the call names, if it names one.
    pub fn first<E, A: Ask<R, E>>(&self, ask: &A) -> Option<E>
        ensures { result ≡ first_of (A.asks ask.now) (named self.now) }
    {
        match self {
            CanvasOf::Create { .. } => None,
            CanvasOf::On { canvas, .. } => ask.ask(canvas, Wanted::Canvas),
        }
    }

    /// The call with what stands for its canvas in place of that.
    pub fn map<S: Drop, F: Find<R, S>>(&self, find: &F) -> Result<CanvasOf<S>, NoMemory>
        ensures { IfOk result (λ found. found ≡ map_canvas (F.finds find.now) self.now) }
    {
        match self {
            CanvasOf::Create { width, height } => Ok(CanvasOf::Create {
                width: *width,
                height: *height,
            }),
            CanvasOf::On { canvas, call } => Ok(CanvasOf::On {
                canvas: find.find(canvas)?,
                call: *call,
            }),
        }
    }
}
