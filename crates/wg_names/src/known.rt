//! The names that calls have made so far.
ghost use Rattle.std.specs.Prelude.{◌≡◌, ◌||◌, ◌&&◌, ◌==◌, OnOk, OnErr, is_none};
ghost use Rattle.wg_names.specs.Names.{no_names, with_name, with_configured, slot_in, kind_in, is_own, is_visible, check_wanted, check_use};
ghost use Rattle.wg_names.specs.Uses.{wants_own};

use std::alloc::Global;
use std::collections::{HashMap, HashSet};
use wg_script::{Name, NoMemory};
use wg_types::wanted::{Kind, Wanted};

/// What a name stands for, the phase and the lane whose call made it, and how many names were made
/// before it.
#[derive(Clone, Copy, PartialEq, Eq)]
pub struct Mark {
    pub kind: Kind,
    pub phase: u32,
    pub lane: u32,
    pub slot: u32,
}

/// What each name stands for, of those that were made so far, how many these are, and which of them stand
/// for canvases that a call has configured.
#[derive(Drop)]
pub struct BoundNames<'a> {
    marks: HashMap<&'a str, Mark>,
    made: u32,
    configured: HashSet<&'a str>,
}

impl<'a> BoundNames<'a> {
    ghost use Rattle.wg_names.specs.Known.{names_in};

    /// No names.
    pub fn new(alloc: Global) -> BoundNames<'a>
        ensures { names_in result ≡ no_names }
    {
        BoundNames {
            marks: HashMap::new(alloc),
            made: 0,
            configured: HashSet::new(alloc),
        }
    }

    /// What a name stands for, if a call has made it.
    pub fn find(&self, name: &str) -> Option<Mark>
        ensures { result ≡ (names_in self.now).marks name.now }
    {
        self.marks.get(name).copied()
    }

    /// The slot of a name that a call has made.
    pub fn slot(&self, name: &Name) -> u32
        ensures { result ≡ slot_in (names_in self.now) name.now }
    {
        match self.find(name.as_str()) {
            Some(mark) => mark.slot,
            None => 0,
        }
    }

    /// The kind of what a name stands for that a call has made.
    pub fn kind(&self, name: &Name) -> Kind
        ensures { result ≡ kind_in (names_in self.now) name.now }
    {
        match self.find(name.as_str()) {
            Some(mark) => mark.kind,
            None => Kind::Encoder,
        }
    }

    /// Whether no call has made a name.
    pub fn is_new(&self, name: &str) -> bool
        ensures { result ≡ is_none ((names_in self.now).marks name.now) }
    {
        self.find(name).is_none()
    }

    /// Tests a name that a call of this phase and lane uses: script rule 10 where no call that is
    /// visible has made it, then 11 where it stands for something else than is wanted, and then 12
    /// where it stands for an encoder, a bundle encoder or a pass of another lane or phase that the
    /// call stands on or ends, or for such a canvas.
    pub fn check_use(&self, phase: u32, lane: u32, name: &Name, wanted: Wanted) -> Result<(), u8>
        ensures { result ≡ check_use (names_in self.now) phase lane (name.now, wanted) }
    {
        match self.find(name.as_str()) {
            Some(mark) if mark.is_visible(phase, lane) => mark.check_wanted(phase, lane, wanted),
            _ => Err(10),
        }
    }

    /// Adds a name that a call of this phase and lane makes. The 2^32-th, which would have no slot
    /// after it, counts as want of memory.
    pub fn add(&mut self, phase: u32, lane: u32, name: &'a Name, kind: Kind) -> Result<(), NoMemory>
        ensures ok { OnOk result (names_in self.new ≡ with_name phase lane name.now kind (names_in self.old)) }
        ensures err { OnErr result (names_in self.new ≡ names_in self.old) }
    {
        let slot = self.made;
        let Some(made) = slot.checked_add(1) else {
            return Err(NoMemory);
        };
        let mark = Mark {
            kind,
            phase,
            lane,
            slot,
        };
        self.marks.insert(name.as_str(), mark)?;
        self.made = made;
        Ok(())
    }

    /// Whether a call has configured the canvas of a name.
    pub fn is_configured(&self, name: &str) -> bool
        ensures { result ≡ (names_in self.now).configured name.now }
    {
        self.configured.contains(name)
    }

    /// Notes that a call has configured the canvas of a name.
    pub fn configure(&mut self, name: &'a Name) -> Result<(), NoMemory>
        ensures ok { OnOk result (names_in self.new ≡ with_configured name.now (names_in self.old)) }
        ensures err { OnErr result (names_in self.new ≡ names_in self.old) }
    {
        self.configured.insert(name.as_str())?;
        Ok(())
    }
}

impl Mark {
    /// Whether the name was made in this phase and lane.
    fn is_own(self, phase: u32, lane: u32) -> bool
        ensures { result ≡ is_own phase lane self }
    {
        self.phase == phase && self.lane == lane
    }

    /// Whether calls of this phase and lane see the name: it was made in an earlier phase, or in
    /// their own lane.
    fn is_visible(self, phase: u32, lane: u32) -> bool
        ensures { result ≡ is_visible phase lane self }
    {
        self.phase < phase || self.is_own(phase, lane)
    }

    /// Tests what a visible name stands for.
    fn check_wanted(self, phase: u32, lane: u32, wanted: Wanted) -> Result<(), u8>
        ensures { result ≡ check_wanted phase lane wanted self }
    {
        if !wanted.admits(self.kind) {
            return Err(11);
        }
        if wants_own(wanted) && !self.is_own(phase, lane) {
            return Err(12);
        }
        Ok(())
    }
}

/// Whether a place in a call asks for what the call's own lane made in this phase: so does each that
/// asks for an encoder, a bundle encoder, a pass, or any of these, and each that asks for a canvas.
fn wants_own(wanted: Wanted) -> bool
    ensures { result ≡ wants_own wanted }
{
    match wanted {
        Wanted::Encoder
        | Wanted::BundleEncoder
        | Wanted::ComputePass
        | Wanted::RenderPass
        | Wanted::Pass
        | Wanted::Binding
        | Wanted::Drawing
        | Wanted::Recording
        | Wanted::Canvas => true,
        Wanted::Buffer
        | Wanted::Texture
        | Wanted::View
        | Wanted::Sampler
        | Wanted::GroupLayout
        | Wanted::PipelineLayout
        | Wanted::Group
        | Wanted::Pipeline
        | Wanted::ComputePipeline
        | Wanted::RenderPipeline
        | Wanted::Queries
        | Wanted::Destroyable
        | Wanted::CommandBuffer
        | Wanted::Bundle
        | Wanted::Object => false,
    }
}
