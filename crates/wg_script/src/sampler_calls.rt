//! Reads `createSampler`: a sampler is told by its kind alone, or by what describes it.
ghost use Rattle.std.specs.Prelude.{◌≡◌};
ghost use Rattle.wg_json.specs.View.{view};
ghost use Rattle.wg_script.specs.Giving.{Gives};
ghost use Rattle.wg_script.specs.SamplerCalls.{sampler_fields_keys, address_keys, described_sampler_of, kind_sampler_of, create_sampler_of};

use crate::binding_words::SAMPLERS;
use crate::calling::making;
use crate::calls::Call;
use crate::labels::made_in;
use crate::sampler_words::{ADDRESS_MODES, COMPARES, FILTERS};
use crate::values::{MOST_WHOLE, Refusal, check_keys, has_any, reading, short_or, whole_or};
use crate::words::{word_if, word_or};
use std::alloc::Global;
use wg_json::Value;
use wg_types::bindings::SamplerKind;
use wg_types::requests::RequestOf;
use wg_types::samplers::{FilterMode, SamplerDesc, SamplerFields};

/// The keys of which any says that a sampler is described.
const DESCRIBING: [&str; 10] = [
    "magFilter",
    "minFilter",
    "mipmapFilter",
    "compare",
    "lodMinClamp",
    "lodMaxClamp",
    "maxAnisotropy",
    "addressModeU",
    "addressModeV",
    "addressModeW",
];

/// What of a sampler's description rules go by.
fn sampler_fields_in(call: &Value<'_>) -> Result<SamplerFields, u8>
    ensures { result ≡ sampler_fields_keys.read (view call.now) }
{
    Ok(SamplerFields {
        mag_filter: word_or(call, "magFilter", &FILTERS, FilterMode::Nearest)?,
        min_filter: word_or(call, "minFilter", &FILTERS, FilterMode::Nearest)?,
        mipmap_filter: word_or(call, "mipmapFilter", &FILTERS, FilterMode::Nearest)?,
        compare: word_if(call, "compare", &COMPARES)?,
        lod_min: whole_or(call, "lodMinClamp", MOST_WHOLE, 0)?,
        lod_max: whole_or(call, "lodMaxClamp", MOST_WHOLE, 2_097_152)?,
        max_anisotropy: short_or(call, "maxAnisotropy", 1)?,
    })
}

/// How a sampler addresses what lies outside of a texture, of which nothing is kept.
fn address_modes_in(call: &Value<'_>) -> Result<(), u8>
    ensures { result ≡ address_keys.read (view call.now) }
{
    word_or(call, "addressModeU", &ADDRESS_MODES, ())?;
    word_or(call, "addressModeV", &ADDRESS_MODES, ())?;
    word_or(call, "addressModeW", &ADDRESS_MODES, ())?;
    Ok(())
}

#[tactic(auto, unfolding(crate::specs::SamplerCalls::described_sampler_of))]
fn described_sampler(alloc: Global, call: &Value<'_>) -> Result<Call, Refusal>
    ensures { Gives result (described_sampler_of (view call.now)) }
{
    reading!(call:
        part fields = sampler_fields_in("magFilter", "minFilter", "mipmapFilter", "compare", "lodMinClamp", "lodMaxClamp", "maxAnisotropy");
        part _modes = address_modes_in("addressModeU", "addressModeV", "addressModeW");
        make made = made_in(alloc);
        => making(RequestOf::CreateSampler { desc: SamplerDesc::Full(fields) }, made))
}

#[tactic(auto, unfolding(crate::specs::SamplerCalls::kind_sampler_of))]
fn kind_sampler(alloc: Global, call: &Value<'_>) -> Result<Call, Refusal>
    ensures { Gives result (kind_sampler_of (view call.now)) }
{
    reading!(call:
        may kind = word_or("kind", &SAMPLERS, SamplerKind::Filtering);
        make made = made_in(alloc);
        => making(RequestOf::CreateSampler { desc: SamplerDesc::Kind(kind) }, made))
}

/// Reads `createSampler`. A sampler that is described has no key `kind`.
#[tactic(auto, unfolding(crate::specs::SamplerCalls::create_sampler_of))]
pub fn create_sampler(alloc: Global, call: &Value<'_>) -> Result<Call, Refusal>
    ensures { Gives result (create_sampler_of (view call.now)) }
{
    if has_any(call, &DESCRIBING) {
        described_sampler(alloc, call)
    } else {
        kind_sampler(alloc, call)
    }
}
