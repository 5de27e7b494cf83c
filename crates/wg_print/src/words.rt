ghost use Rattle.std.specs.Prelude.{◌≡◌};
ghost use Rattle.wg_print.specs.Entries.{fault_kind_text, validity_text};
ghost use Rattle.wg_print.specs.Items.{sort_text};
ghost use Rattle.wg_print.specs.Parts.{aspect_text, access_kind_text};

use wg_trace::parts::{AccessKind, Aspect};
use wg_trace::replies::FaultKind;
use wg_trace::steps::Sort;

pub fn fault_kind_word(kind: FaultKind) -> &'static str
    ensures { result.now ≡ fault_kind_text kind }
{
    match kind {
        FaultKind::Validation => "validation",
        FaultKind::OutOfMemory => "out-of-memory",
    }
}

pub fn validity_word(valid: bool) -> &'static str
    ensures { result.now ≡ validity_text valid }
{
    if valid { "valid" } else { "invalid" }
}

pub fn aspect_word(aspect: Aspect) -> &'static str
    ensures { result.now ≡ aspect_text aspect }
{
    match aspect {
        Aspect::Color => "color",
        Aspect::Depth => "depth",
        Aspect::Stencil => "stencil",
    }
}

pub fn access_kind_word(kind: AccessKind) -> &'static str
    ensures { result.now ≡ access_kind_text kind }
{
    match kind {
        AccessKind::Read => "read",
        AccessKind::Write => "write",
        AccessKind::Both => "both",
        AccessKind::Drop => "drop",
        AccessKind::ReadDrop => "readdrop",
    }
}

pub fn sort_word(sort: Sort) -> &'static str
    ensures { result.now ≡ sort_text sort }
{
    match sort {
        Sort::Buffer => "b",
        Sort::Texture => "t",
        Sort::Queries => "q",
    }
}
