//! What the kept commands of a recorder have done.
ghost use Rattle.std.specs.Prelude.{◌≡◌, Some, None, is_some, true, [], OnOk, OnErr};
ghost use Rattle.std.specs.Option.{option_or};
ghost use Rattle.wg_model.specs.Touches.{encoder_does};
ghost use Rattle.wg_encoder.specs.Done.{done_by_encoder, done_by_pass, done_of};

use std::alloc::Global;
use wg_access::{deed_of, encoder_deed, scope_clash};
use wg_cbtrack::CbTrack;
use wg_types::NoMemory;
use wg_types::commands::Command;
use wg_types::parts::Part;
use wg_types::steps::{StepName, Touch};

/// The finished steps, in order, in a tracker that finds what they add to a trace, and the least clashing
/// part of the first usage scope that has one (WebGPU, "Usage Scope Validation").
#[derive(Drop)]
pub struct Done {
    pub clash: Option<Part>,
    pub deeds: CbTrack,
}

/// The first of two parts.
fn first_part(a: Option<Part>, b: Option<Part>) -> Option<Part>
    ensures { result ≡ option_or a b }
{
    if let Some(part) = a {
        return Some(part);
    }
    b
}

impl Done {
    /// Nothing is done.
    pub fn new(alloc: Global) -> Done
        ensures { result ≡ done_of [] }
    {
        Done {
            clash: None,
            deeds: CbTrack::new(alloc),
        }
    }

    /// Adds a step of a pass that touches these.
    pub fn add(&mut self, alloc: Global, name: StepName, touches: &[Touch]) -> Result<(), NoMemory>
        ensures ok { OnOk result (self.new ≡ done_by_pass self.old (Some (name, touches.now))) }
        ensures err { OnErr result (self.new ≡ self.old) }
    {
        let deed = deed_of(alloc, name, touches)?;
        let found = scope_clash(alloc, &deed, touches)?;
        self.deeds.note(deed)?;
        self.clash = first_part(self.clash, found);
        Ok(())
    }

    /// Adds the step of a command on the encoder, if it makes one, unless some rule is unmet.
    pub fn add_command(
        &mut self,
        alloc: Global,
        verdict: Option<u16>,
        command: &Command,
    ) -> Result<(), NoMemory>
        ensures ok { verdict ≡ None → OnOk result (self.new ≡ done_by_encoder self.old (encoder_does command.now)) }
        ensures refused { is_some verdict ≡ true → self.new ≡ self.old }
        ensures err { OnErr result (self.new ≡ self.old) }
    {
        if verdict.is_some() {
            return Ok(());
        }
        let Some(deed) = encoder_deed(alloc, command)? else {
            return Ok(());
        };
        self.deeds.note(deed)?;
        Ok(())
    }
}
