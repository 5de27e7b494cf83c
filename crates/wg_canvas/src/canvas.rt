//! A canvas context.
ghost use Rattle.std.specs.Prelude.{◌≡◌, IfOk, OnOk, OnErr, option_map};
ghost use Rattle.wg_canvas.specs.Canvases.{format_of, texture_of, expiry_asked, texture_asked, expired, configured, IsAnswered, IsAfter, reply_in, act_asked, acted, act_made};
ghost use Rattle.wg_canvas.specs.declared.canvas.Stage.TheVariants.{Unset};
ghost use Rattle.wg_canvas.specs.Makers.{HasSent};

use crate::maker::Maker;
use std::marker::Model;
use wg_types::NoMemory;
use wg_types::canvases::{CanvasCall, CanvasFormat};
use wg_types::formats::Format;
use wg_types::handles::Handle;
use wg_types::replies::Reply;
use wg_types::textures::{TextureDim, TextureInfo};

/// What a canvas is configured with.
#[derive(Clone, Copy, PartialEq, Eq)]
pub struct Setting {
    pub format: CanvasFormat,
    pub usage: u32,
}

/// A canvas is not configured, or it is and has no current texture, or has one.
#[derive(Drop)]
pub enum Stage {
    Unset,
    Empty(Setting),
    Filled(Setting, Handle),
}

/// What is answered of a current texture: the canvas is not configured, there is one already, or one was
/// made.
#[derive(Drop)]
pub enum Current {
    NotConfigured,
    Same,
    Made(Reply),
}

/// A canvas context (WebGPU, "GPUCanvasContext") of a fixed extent, with one current texture at a time.
#[derive(Drop)]
pub struct Canvas {
    width: u32,
    height: u32,
    stage: Stage,
}

impl Model for Canvas {
    ghost use Rattle.wg_canvas.specs.Canvases.{CanvasValue, HasTexture};

    ghost Value = { CanvasValue };

    ghost view = { λ c. record { width = c.width; height = c.height; stage = c.stage } };

    ghost invariant = { λ c. HasTexture c.stage };
}

/// A format of canvases as one of textures.
fn format_of(format: CanvasFormat) -> Format
    ensures { result ≡ format_of format }
{
    match format {
        CanvasFormat::Rgba8unorm => Format::Rgba8Unorm,
        CanvasFormat::Bgra8unorm => Format::Bgra8Unorm,
        CanvasFormat::Rgba16float => Format::Rgba16Float,
    }
}

impl Canvas {
    /// A canvas that is not configured and has no texture. It takes no memory.
    pub fn new(width: u32, height: u32) -> Canvas
        ensures { result ≡ record { width = width; height = height; stage = Unset } }
    {
        Canvas {
            width,
            height,
            stage: Stage::Unset,
        }
    }

    /// The current texture, if there is one. It takes no memory.
    pub fn texture(&self) -> Option<&Handle>
        ensures { option_map (λ texture. texture.now) result ≡ texture_of self.now }
    {
        match &self.stage {
            Stage::Filled(_, texture) => Some(texture),
            Stage::Unset | Stage::Empty(_) => None,
        }
    }

    /// Destroys the current texture, if there is one, and answers the reply to that. Afterwards there is
    /// none, and textures are made in this format and for this usage. Without memory all is as before.
    pub fn configure<M: Maker>(
        &mut self,
        maker: &mut M,
        format: CanvasFormat,
        usage: u32,
    ) -> Result<Option<Reply>, NoMemory>
        requires { M.ready maker.old }
        ensures called { M.called maker.old maker.new }
        ensures same { (M.who maker.new ≡ M.who maker.old) × (M.device maker.new ≡ M.device maker.old) }
        ensures sent { IfOk result (λ reply. HasSent M.sent M.who M.event maker.old maker.new (expiry_asked self.old) reply) }
        ensures after { OnOk result (self.new ≡ configured self.old format usage) }
        ensures unsent { OnErr result (M.sent maker.new ≡ M.sent maker.old) }
        ensures unchanged { OnErr result (self.new ≡ self.old) }
    {
        let reply = self.present(maker)?;
        self.stage = Stage::Empty(Setting { format, usage });
        Ok(reply)
    }

    /// Makes the current texture, unless there is one or the canvas is not configured, of the canvas's
    /// extent, 2D, with one mip level and one sample. Without memory all is as before.
    pub fn current<M: Maker>(&mut self, maker: &mut M) -> Result<Current, NoMemory>
        requires { M.ready maker.old }
        ensures called { M.called maker.old maker.new }
        ensures same { (M.who maker.new ≡ M.who maker.old) × (M.device maker.new ≡ M.device maker.old) }
        ensures answered { IfOk result (IsAnswered self.old.stage) }
        ensures sent { IfOk result (λ current. HasSent M.sent M.who M.event maker.old maker.new (texture_asked self.old) (reply_in current)) }
        ensures after { IfOk result (λ current. IsAfter (M.device maker.old) self.old current self.new) }
        ensures unsent { OnErr result (M.sent maker.new ≡ M.sent maker.old) }
        ensures unchanged { OnErr result (self.new ≡ self.old) }
    {
        let setting = match &self.stage {
            Stage::Unset => return Ok(Current::NotConfigured),
            Stage::Filled(..) => return Ok(Current::Same),
            Stage::Empty(setting) => *setting,
        };
        let info = TextureInfo {
            size: [self.width, self.height, 1],
            usage: setting.usage,
            format: format_of(setting.format),
            dim: TextureDim::Two,
            mips: 1,
            samples: 1,
        };
        let (texture, reply) = maker.create(info)?;
        self.stage = Stage::Filled(setting, texture);
        Ok(Current::Made(reply))
    }

    /// Destroys the current texture, if there is one, and answers the reply to that. Afterwards there is
    /// none. Without memory all is as before.
    pub fn present<M: Maker>(&mut self, maker: &mut M) -> Result<Option<Reply>, NoMemory>
        requires { M.ready maker.old }
        ensures called { M.called maker.old maker.new }
        ensures same { (M.who maker.new ≡ M.who maker.old) × (M.device maker.new ≡ M.device maker.old) }
        ensures sent { IfOk result (λ reply. HasSent M.sent M.who M.event maker.old maker.new (expiry_asked self.old) reply) }
        ensures after { OnOk result (self.new ≡ expired self.old) }
        ensures unsent { OnErr result (M.sent maker.new ≡ M.sent maker.old) }
        ensures unchanged { OnErr result (self.new ≡ self.old) }
    {
        let Stage::Filled(setting, texture) = &self.stage else {
            return Ok(None);
        };
        let setting = *setting;
        let reply = Some(maker.destroy(texture)?);
        self.stage = Stage::Empty(setting);
        Ok(reply)
    }

    /// Makes one of its calls, and answers the reply to what that asks of the device, if it asks something.
    /// Without memory all is as before.
    #[tactic(auto, using(crate::proofs::Acted::made_is))]
    pub fn act<M: Maker>(
        &mut self,
        maker: &mut M,
        call: CanvasCall,
    ) -> Result<Option<Reply>, NoMemory>
        requires { M.ready maker.old }
        ensures called { M.called maker.old maker.new }
        ensures same { (M.who maker.new ≡ M.who maker.old) × (M.device maker.new ≡ M.device maker.old) }
        ensures sent { IfOk result (λ reply. HasSent M.sent M.who M.event maker.old maker.new (act_asked self.old call) reply) }
        ensures after { IfOk result (λ reply. self.new ≡ acted self.old call (act_made (M.device maker.old) self.old call reply)) }
        ensures unsent { OnErr result (M.sent maker.new ≡ M.sent maker.old) }
        ensures unchanged { OnErr result (self.new ≡ self.old) }
    {
        match call {
            CanvasCall::Configure { format, usage } => self.configure(maker, format, usage),
            CanvasCall::Current => match self.current(maker)? {
                Current::NotConfigured | Current::Same => Ok(None),
                Current::Made(reply) => Ok(Some(reply)),
            },
            CanvasCall::Present => self.present(maker),
        }
    }
}
