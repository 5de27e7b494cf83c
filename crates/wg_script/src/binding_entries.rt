//! Reads the objects inside calls on bindings: kinds of bindings, and the entries of lists.
ghost use Rattle.std.specs.Prelude.{◌≡◌, ◌++◌, map};
ghost use Rattle.serde_json.specs.Find.{get};
ghost use Rattle.wg_json.specs.View.{view};
ghost use Rattle.wg_script.specs.Giving.{Gives};
ghost use Rattle.wg_script.specs.Readers.{inner_by};
ghost use Rattle.wg_script.specs.Lists.{list_or_empty};
ghost use Rattle.wg_script.specs.Values.{check_inner};
ghost use Rattle.wg_script.specs.BindingEntries.{kind_keys, layout_entry_of, iface_entry_of, staged_entry_of, group_entry_of, buffer_entry_keys, view_entry_keys, sampler_entry_keys};

use crate::binding_words::{ACCESSES, KINDS, KindWord, SAMPLERS, SAMPLES, STAGES};
use crate::lists::{ReadItem, list_as_or_empty};
use crate::name::Name;
use crate::texture_words::{FORMATS, VIEW_DIMS};
use crate::values::{
    MOST_WHOLE, Refusal, check_beside, check_object, flag_or, name_at, reading, short_at, whole_if,
    whole_or,
};
use crate::words::{word_at, word_or};
use std::alloc::Global;
use wg_json::Value;
use wg_types::bindings::{
    BindingKind, GroupEntryOf, IfaceEntry, LayoutEntry, ResourceOf, SamplerKind, Stage,
    StorageAccess,
};
use wg_types::formats::SampleType;
use wg_types::items::Items;
use wg_types::textures::ViewDim;

/// Script rule 8: refuses what is no object with just these keys and those of its kind.
fn check_kinded(object: &Value<'_>, beside: &[&str], word: KindWord) -> Result<(), u8>
    ensures { result ≡ check_inner (map (λ n. n.now) beside.now ++ (kind_keys word).needed)
        (kind_keys word).optional (view object.now) }
{
    match word {
        KindWord::Buffer(_) => check_beside(object, beside, &[], &["dynamic", "minSize"]),
        KindWord::Sampler => check_beside(object, beside, &[], &["type"]),
        KindWord::Texture => check_beside(object, beside, &[], &["sample", "dim", "multi"]),
        KindWord::StorageTexture => {
            check_beside(object, beside, &["format"], &["access", "dim"])
        }
    }
}

/// Reads the keys of a kind beside that of its word.
fn kind_of(object: &Value<'_>, word: KindWord) -> Result<BindingKind, u8>
    ensures { result ≡ (kind_keys word).read (view object.now) }
{
    match word {
        KindWord::Buffer(binding) => Ok(BindingKind::Buffer {
            binding,
            dynamic: flag_or(object, "dynamic", false)?,
            min_size: whole_or(object, "minSize", MOST_WHOLE, 0)?,
        }),
        KindWord::Sampler => Ok(BindingKind::Sampler {
            sampler_type: word_or(object, "type", &SAMPLERS, SamplerKind::Filtering)?,
        }),
        KindWord::Texture => Ok(BindingKind::Texture {
            sample: word_or(object, "sample", &SAMPLES, SampleType::Float)?,
            dim: word_or(object, "dim", &VIEW_DIMS, ViewDim::Two)?,
            multi: flag_or(object, "multi", false)?,
        }),
        KindWord::StorageTexture => Ok(BindingKind::StorageTexture {
            access: word_or(object, "access", &ACCESSES, StorageAccess::WriteOnly)?,
            format: word_at(object, "format", &FORMATS)?,
            dim: word_or(object, "dim", &VIEW_DIMS, ViewDim::Two)?,
        }),
    }
}

impl ReadItem<LayoutEntry> for LayoutEntry {
    ghost reads = { layout_entry_of };

    #[tactic(auto, unfolding(crate::specs::BindingEntries::layout_entry_of))]
    fn read_item(_alloc: Global, value: &Value<'_>) -> Result<LayoutEntry, Refusal> {
        let word = word_at(value, "kind", &KINDS)?;
        check_kinded(value, &["binding", "visibility", "kind"], word)?;
        let binding = short_at(value, "binding")?;
        let visibility = short_at(value, "visibility")?;
        let kind = kind_of(value, word)?;
        Ok(LayoutEntry {
            binding,
            visibility,
            kind,
        })
    }
}

/// What a compute shader uses.
impl ReadItem<IfaceEntry> for IfaceEntry {
    ghost reads = { iface_entry_of };

    #[tactic(auto, unfolding(crate::specs::BindingEntries::iface_entry_of))]
    fn read_item(_alloc: Global, value: &Value<'_>) -> Result<IfaceEntry, Refusal> {
        let word = word_at(value, "kind", &KINDS)?;
        check_kinded(value, &["group", "binding", "kind"], word)?;
        let group = short_at(value, "group")?;
        let binding = short_at(value, "binding")?;
        let kind = kind_of(value, word)?;
        Ok(IfaceEntry {
            group,
            binding,
            stage: Stage::Compute,
            kind,
        })
    }
}

/// The form of what a shader of a render pipeline uses, which names its stage.
enum Staged {}

impl ReadItem<IfaceEntry> for Staged {
    ghost reads = { staged_entry_of };

    #[tactic(auto, unfolding(crate::specs::BindingEntries::staged_entry_of))]
    fn read_item(_alloc: Global, value: &Value<'_>) -> Result<IfaceEntry, Refusal> {
        let word = word_at(value, "kind", &KINDS)?;
        check_kinded(value, &["group", "binding", "stage", "kind"], word)?;
        let group = short_at(value, "group")?;
        let binding = short_at(value, "binding")?;
        let stage = word_at(value, "stage", &STAGES)?;
        let kind = kind_of(value, word)?;
        Ok(IfaceEntry {
            group,
            binding,
            stage,
            kind,
        })
    }
}

/// What the shaders of a render pipeline use, or nothing where the key is left out.
pub fn staged_or_empty(
    alloc: Global,
    object: &Value<'_>,
    key: &str,
) -> Result<Items<IfaceEntry>, Refusal>
    ensures { Gives result (list_or_empty staged_entry_of (get key.now (view object.now))) }
{
    list_as_or_empty::<IfaceEntry, Staged>(alloc, object, key)
}

fn buffer_entry(alloc: Global, value: &Value<'_>) -> Result<GroupEntryOf<Name>, Refusal>
    ensures { Gives result (inner_by buffer_entry_keys (view value.now)) }
{
    reading!(inside value:
        need binding = short_at("binding");
        need buffer = name_at(alloc, "buffer");
        may offset = whole_or("offset", MOST_WHOLE, 0);
        may size = whole_if("size", MOST_WHOLE);
        => GroupEntryOf { binding, resource: ResourceOf::Buffer { buffer, offset, size } })
}

fn view_entry(alloc: Global, value: &Value<'_>) -> Result<GroupEntryOf<Name>, Refusal>
    ensures { Gives result (inner_by view_entry_keys (view value.now)) }
{
    reading!(inside value:
        need binding = short_at("binding");
        need view = name_at(alloc, "view");
        => GroupEntryOf { binding, resource: ResourceOf::View { view } })
}

fn sampler_entry(alloc: Global, value: &Value<'_>) -> Result<GroupEntryOf<Name>, Refusal>
    ensures { Gives result (inner_by sampler_entry_keys (view value.now)) }
{
    reading!(inside value:
        need binding = short_at("binding");
        need sampler = name_at(alloc, "sampler");
        => GroupEntryOf { binding, resource: ResourceOf::Sampler { sampler } })
}

impl ReadItem<GroupEntryOf<Name>> for GroupEntryOf<Name> {
    ghost reads = { group_entry_of };

    #[tactic(auto, unfolding(crate::specs::BindingEntries::group_entry_of))]
    fn read_item(alloc: Global, value: &Value<'_>) -> Result<GroupEntryOf<Name>, Refusal> {
        if value.get("buffer").is_some() {
            buffer_entry(alloc, value)
        } else if value.get("view").is_some() {
            view_entry(alloc, value)
        } else {
            sampler_entry(alloc, value)
        }
    }
}
