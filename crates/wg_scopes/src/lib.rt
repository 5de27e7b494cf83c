//! Usage scopes (WebGPU, "Usage Scope Validation"): the parts that are used in one, each with the set
//! of all its usages there (WebGPU, "Resource Usages"), and the verdict on them.
#![tactic(auto)]

ghost use Rattle.std.specs.Prelude.{◌≡◌, ◌≤◌, length, drop, take, ◌∷◌, ◌++◌, [], List, OnOk, OnErr};
ghost use Rattle.wg_rows.specs.Rows.{Apart};
ghost use Rattle.wg_rows.specs.Runs.{part_sort};
ghost use Rattle.wg_rows.specs.Sets.{with_use, with_uses, sets};
ghost use Rattle.wg_model.specs.Scopes.{Use, may_stand, first_part, clash_in, IsVerdict};
ghost use Rattle.wg_scopes.specs.OfObject.{rows_with, skipped, taken};

use bitflags::Flags;
use std::alloc::Global;
use std::marker::Model;
use wg_entry::NoMemory;
use wg_rows::part_runs::run_object;
use wg_rows::uses;
use wg_types::items::Items;
use wg_types::parts::{Part, PartRun};
use wg_types::steps::Uses;
use wg_types::usages::Usages;

/// Whether usages of one part may stand together: all are among input, constant, storage-read and
/// attachment-read, or all are storage, or all are attachment.
fn may_stand(set: Usages) -> bool
    ensures { result ≡ may_stand set }
{
    // Input 1, constant 2, storage 4, storage-read 8, attachment 16, attachment-read 32.
    let bits = set.bits();
    bits | 43 == 43 || bits | 4 == 4 || bits | 16 == 16
}

/// The first part of a run.
fn first_part(run: PartRun) -> Part
    ensures { result ≡ first_part run }
{
    match run {
        PartRun::Buffer { object } => Part::Buffer { object },
        PartRun::Queries { object } => Part::Queries { object },
        PartRun::Texture {
            object,
            aspect,
            mip,
            lo,
            ..
        } => Part::Texture {
            object,
            aspect,
            mip,
            layer: lo,
        },
    }
}

/// The first part, in order, whose set of all uses has usages that may not stand together. For the
/// rows of a scope in printed form, as those of a step are, it is the verdict on that scope.
pub fn clash_in(rows: &[(PartRun, Usages)]) -> Option<Part>
    ensures { result ≡ clash_in rows.now }
{
    for row in rows {
        if !may_stand(row.1) {
            return Some(first_part(row.0));
        }
    }
    None
}

/// How many of the first rows are of lesser objects.
fn count_before(rows: &[(PartRun, Usages)], object: u64) -> usize
    ensures within { result ≤ length rows.now }
    ensures rest { drop result rows.now ≡ skipped object rows.now }
{
    for (i, row) in rows.iter().enumerate() {
        if run_object(row.0) >= object {
            return i;
        }
    }
    rows.len()
}

/// How many of the first rows are of an object.
fn count_of(rows: &[(PartRun, Usages)], object: u64) -> usize
    ensures within { result ≤ length rows.now }
    ensures those { take result rows.now ≡ taken object rows.now }
{
    for (i, row) in rows.iter().enumerate() {
        if run_object(row.0) != object {
            return i;
        }
    }
    rows.len()
}

/// The rows of an object, among rows in printed order.
fn rows_of(rows: &[(PartRun, Usages)], object: u64) -> &[(PartRun, Usages)]
    requires { Apart part_sort rows.now }
    ensures { result.now ≡ rows_with object rows.now }
{
    let lo = count_before(rows, object);
    let rest = &rows[lo..];
    let count = count_of(rest, object);
    &rest[..count]
}

/// A usage scope. Contracts see its parts with the sets of their uses, in printed form: a row for
/// each run of parts that are used alike. It keeps its allocator.
#[derive(Drop)]
pub struct Scope {
    rows: Vec<(PartRun, Usages)>,
}

impl Model for Scope {
    ghost use Rattle.std.specs.Prelude.{List};
    ghost use Rattle.wg_rows.specs.Rows.{Apart};
    ghost use Rattle.wg_rows.specs.Runs.{part_sort};
    ghost use Rattle.wg_model.specs.Scopes.{Use};

    ghost Value = { List Use };

    ghost view = { λ s. s.rows.items };

    ghost invariant = { λ s. Apart part_sort s.rows.items };
}

impl Scope {
    /// The scope of no uses, which takes no memory.
    pub fn new(alloc: Global) -> Scope
        ensures { result ≡ [] }
    {
        Scope {
            rows: Vec::new(alloc),
        }
    }

    /// Adds a use of each part of a run. An empty run adds nothing.
    #[tactic(auto, using(wg_rows::proofs::Sets::with_use_apart))]
    pub fn use_part(&mut self, run: PartRun, usage: Usages) -> Result<(), NoMemory>
        ensures after { OnOk result (self.new ≡ with_use (run, usage) self.old) }
        // So of a scope of some uses it makes that of one more.
        ensures uses { (uses : List Use) → self.old ≡ sets uses → OnOk result (self.new ≡ sets ((run, usage) ∷ uses)) }
        ensures unchanged { OnErr result (self.new ≡ self.old) }
    {
        let rows = uses::with_use(*self.rows.allocator(), self.rows.as_slice(), (run, usage))?;
        self.rows = rows;
        Ok(())
    }

    /// Adds all uses of another scope.
    #[tactic(auto, using(crate::proofs::Merging::merged, wg_rows::proofs::Sets::with_uses_apart))]
    pub fn merge(&mut self, other: &Scope) -> Result<(), NoMemory>
        ensures after { OnOk result (self.new ≡ with_uses other.now self.old) }
        // So of a scope of some uses it makes that of both.
        ensures uses { (uses more : List Use) → self.old ≡ sets uses → other.now ≡ sets more → OnOk result (self.new ≡ sets (more ++ uses)) }
        ensures unchanged { OnErr result (self.new ≡ self.old) }
    {
        let rows = uses::with_uses(
            *self.rows.allocator(),
            self.rows.as_slice(),
            other.rows.as_slice(),
        )?;
        self.rows = rows;
        Ok(())
    }

    /// The verdict on the uses: none exactly where they are compatible, and else the least part of
    /// which two may not stand together.
    #[tactic(auto, using(crate::proofs::Merging::verdict_of))]
    pub fn verdict(&self) -> Option<Part>
        ensures value { result ≡ clash_in self.now }
        ensures verdict { (uses : List Use) → self.now ≡ sets uses → IsVerdict uses result }
    {
        clash_in(self.rows.as_slice())
    }

    /// The used parts, each with the set of all its uses: in order, and no two rows that touch have
    /// equal sets.
    pub fn rows(&self) -> &[(PartRun, Usages)]
        ensures rows { result.now ≡ self.now }
        ensures apart { Apart part_sort result.now }
    {
        self.rows.as_slice()
    }

    /// The rows of one object. An object that is not used has none.
    #[tactic(auto, using(crate::proofs::OfObject::rows_apart))]
    pub fn rows_of(&self, object: u64) -> &[(PartRun, Usages)]
        ensures rows { result.now ≡ rows_with object self.now }
        ensures apart { Apart part_sort result.now }
    {
        rows_of(self.rows.as_slice(), object)
    }

    /// The rows themselves, without taking memory.
    pub fn into_rows(self) -> Uses
        ensures { result ≡ self }
    {
        let Scope { rows } = self;
        Items::from_vec(rows)
    }
}
