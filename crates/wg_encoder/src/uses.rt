//! The resources that a command uses.
ghost use Rattle.std.specs.Prelude.{◌≡◌, ◌∷◌, ◌++◌, [], OnOk};
ghost use Rattle.wg_trace.specs.Added.{BeginsWith};
ghost use Rattle.wg_types.specs.Commands.{named};
ghost use Rattle.std.specs.Prelude.{option_to_list};
ghost use Rattle.std.specs.List.{flat_map};
ghost use Rattle.wg_types.specs.declared.bindings.BoundEntry.{BoundEntry as BoundEntryOf};
ghost use Rattle.wg_types.specs.declared.bundles.BundleTouch.{BundleTouch as BundleTouchOf};
ghost use Rattle.wg_model.specs.Bound.{known_group};
ghost use Rattle.wg_model.specs.Attachments.{attached_view};
ghost use Rattle.wg_model.specs.Bundles.{known_bundle};
ghost use Rattle.wg_encoder.specs.Uses.{resource_uses, group_uses, view_uses, cells_uses, bundle_uses, uses_as, uses_in};

use wg_formats::known_bundle;
use wg_types::NoMemory;
use wg_types::bindings::{BoundEntry, BoundResource};
use wg_types::bundles::BundleTouch;
use wg_types::commands::Command;
use wg_types::handles::{Handle, Info};
use wg_types::parts::Cells;
use wg_types::refs::Gather;
use wg_types::steps::{Sort, Used};
use wg_types::wanted::Wanted;

/// Adds a resource to a list.
#[tactic(auto, using(wg_trace::proofs::Beginnings::begins_one, wg_trace::proofs::Beginnings::begins_same))]
fn push_used(uses: &mut Vec<Used>, object: &Handle, sort: Sort) -> Result<(), NoMemory>
    ensures added { OnOk result (uses.new.items ≡ uses.old.items ++ (record { number = object.now.reference.number; sort = sort }) ∷ []) }
    ensures begins { BeginsWith uses.new.items uses.old.items }
{
    uses.push(Used {
        number: object.reference().number,
        sort,
    })?;
    Ok(())
}

/// The resource that an entry of a bind group binds, or of which it binds a view.
fn resource_used(resource: BoundResource) -> Option<Used>
    ensures { option_to_list result ≡ resource_uses resource }
{
    match resource {
        BoundResource::Buffer { buffer, .. } => Some(Used {
            number: buffer.number,
            sort: Sort::Buffer,
        }),
        BoundResource::View { view_info, .. } => Some(Used {
            number: view_info.texture.number,
            sort: Sort::Texture,
        }),
        BoundResource::Sampler { .. } => None,
    }
}

/// Adds the resources of the entries of a bind group to a list.
#[tactic(auto, using(wg_trace::proofs::Beginnings::begins_self, wg_trace::proofs::Beginnings::begins_same, wg_trace::proofs::Beginnings::begins_one, wg_trace::proofs::Beginnings::begins_then))]
fn push_entries(uses: &mut Vec<Used>, entries: &[BoundEntry]) -> Result<(), NoMemory>
    ensures added { OnOk result (uses.new.items ≡ uses.old.items ++ flat_map (λ (entry : BoundEntryOf). resource_uses entry.resource) entries.now) }
    ensures begins { BeginsWith uses.new.items uses.old.items }
{
    for entry in entries {
        if let Some(used) = resource_used(entry.resource) {
            uses.push(used)?;
        }
    }
    Ok(())
}

/// Adds the resources of a bind group to a list; nothing is known of an invalid one.
#[tactic(auto, using(wg_trace::proofs::Beginnings::begins_self))]
fn push_group(uses: &mut Vec<Used>, group: &Handle) -> Result<(), NoMemory>
    ensures added { OnOk result (uses.new.items ≡ uses.old.items ++ group_uses (known_group group.now)) }
    ensures begins { BeginsWith uses.new.items uses.old.items }
{
    if !group.valid() {
        return Ok(());
    }
    match group.info() {
        Info::Group(known) => push_entries(uses, known.entries.as_slice()),
        _ => Ok(()),
    }
}

/// Adds the texture of a view to a list; nothing is known of an invalid one.
#[tactic(auto, using(wg_trace::proofs::Beginnings::begins_self, wg_trace::proofs::Beginnings::begins_one, wg_trace::proofs::Beginnings::begins_same))]
fn push_view(uses: &mut Vec<Used>, view: &Handle) -> Result<(), NoMemory>
    ensures added { OnOk result (uses.new.items ≡ uses.old.items ++ view_uses (attached_view view.now)) }
    ensures begins { BeginsWith uses.new.items uses.old.items }
{
    if !view.valid() {
        return Ok(());
    }
    match view.info() {
        Info::View(known) => {
            uses.push(Used {
                number: known.texture.number,
                sort: Sort::Texture,
            })?;
            Ok(())
        }
        _ => Ok(()),
    }
}

/// The resource that cells are of.
fn cells_used(cells: Cells) -> Used
    ensures { result ∷ [] ≡ cells_uses cells }
{
    match cells {
        Cells::Bytes { object, .. } => Used {
            number: object,
            sort: Sort::Buffer,
        },
        Cells::Layers { object, .. } | Cells::Slices { object, .. } => Used {
            number: object,
            sort: Sort::Texture,
        },
        Cells::Queries { object, .. } => Used {
            number: object,
            sort: Sort::Queries,
        },
    }
}

/// Adds the resources of what a bundle touches to a list.
#[tactic(auto, using(wg_trace::proofs::Beginnings::begins_self, wg_trace::proofs::Beginnings::begins_same, wg_trace::proofs::Beginnings::begins_one, wg_trace::proofs::Beginnings::begins_then))]
fn push_touches(uses: &mut Vec<Used>, touches: &[BundleTouch]) -> Result<(), NoMemory>
    ensures added { OnOk result (uses.new.items ≡ uses.old.items ++ flat_map (λ (touch : BundleTouchOf). cells_uses touch.cells) touches.now) }
    ensures begins { BeginsWith uses.new.items uses.old.items }
{
    for touch in touches {
        uses.push(cells_used(touch.cells))?;
    }
    Ok(())
}

/// Adds the resources that a bundle uses to a list; nothing is known of an invalid one.
#[tactic(auto, using(wg_trace::proofs::Beginnings::begins_self))]
fn push_bundle(uses: &mut Vec<Used>, bundle: &Handle) -> Result<(), NoMemory>
    ensures added { OnOk result (uses.new.items ≡ uses.old.items ++ bundle_uses (known_bundle bundle.now)) }
    ensures begins { BeginsWith uses.new.items uses.old.items }
{
    match known_bundle(bundle) {
        Some(known) => push_touches(uses, known.touches.as_slice()),
        None => Ok(()),
    }
}

/// The resources that objects are, bind or use.
#[derive(Drop)]
struct Resources;

impl Gather<Handle, Used> for Resources {
    ghost gathers = { λ _ object. uses_as object.1 object.0 };

    #[tactic(auto, using(wg_trace::proofs::Beginnings::begins_self))]
    fn gather(
        &self,
        found: &mut Vec<Used>,
        object: &Handle,
        wanted: Wanted,
    ) -> Result<(), NoMemory> {
        match wanted {
            Wanted::Buffer => push_used(found, object, Sort::Buffer),
            Wanted::Texture => push_used(found, object, Sort::Texture),
            Wanted::Queries => push_used(found, object, Sort::Queries),
            Wanted::View => push_view(found, object),
            Wanted::Group => push_group(found, object),
            Wanted::Bundle => push_bundle(found, object),
            Wanted::Sampler
            | Wanted::GroupLayout
            | Wanted::PipelineLayout
            | Wanted::Pipeline
            | Wanted::ComputePipeline
            | Wanted::RenderPipeline
            | Wanted::Destroyable
            | Wanted::Encoder
            | Wanted::BundleEncoder
            | Wanted::CommandBuffer
            | Wanted::ComputePass
            | Wanted::RenderPass
            | Wanted::Pass
            | Wanted::Binding
            | Wanted::Drawing
            | Wanted::Recording
            | Wanted::Canvas
            | Wanted::Object => Ok(()),
        }
    }
}

/// Adds the resources of the objects that a command names to a list.
pub fn push_uses(uses: &mut Vec<Used>, command: &Command) -> Result<(), NoMemory>
    ensures { OnOk result (uses.new.items ≡ uses.old.items ++ uses_in (named command.now)) }
{
    command.gather(&Resources, uses)
}
