//! How many bytes a sample of all color targets takes.
ghost use Rattle.std.specs.Prelude.{◌≡◌, ◌<◌, ◌≤◌, nat_le, Some, None, IfSome, option_map, if◌then◌else◌};
ghost use Rattle.wg_types.specs.Formats.{row};
ghost use Rattle.wg_types.specs.declared.formats.TargetRow.{TargetRow};
ghost use Rattle.wg_types.specs.declared.fixed.Target.{Target};
ghost use Rattle.wg_model.specs.SampleBytes.{sample_fits, bytes_with};
ghost use Rattle.wg_model.specs.FixedFunction.{target_formats};

use wg_types::fixed::Target;
use wg_types::formats::{Format, TargetRow};

/// What a format is as that of a target.
#[tactic(auto, using(crate::proofs::SampleBytes::rows_are_small))]
fn target_row(format: Format) -> Option<TargetRow>
    ensures found { result ≡ (row format).target }
    ensures small { IfSome result (λ (target : TargetRow). (0 < target.alignment) × (target.alignment ≤ 4) × (target.cost ≤ 16)) }
{
    format.row().target
}

/// Where a sample of a format ends that begins behind so many bytes.
fn bytes_with(bytes: u32, format: Option<Format>) -> u64
    ensures { result ≡ bytes_with bytes format }
{
    let start = u64::from(bytes);
    let Some(format) = format else {
        return start;
    };
    match target_row(format) {
        Some(target) => start.next_multiple_of(u64::from(target.alignment))
            + u64::from(target.cost),
        None => start,
    }
}

/// The same, if that is at most so many bytes, and none where it is more.
pub fn bytes_within(bytes: u32, format: Option<Format>, most: u32) -> Option<u32>
    ensures { result ≡ (if nat_le (bytes_with bytes format) most then Some (bytes_with bytes format) else None) }
{
    let end = bytes_with(bytes, format);
    if end <= u64::from(most) {
        Some(end as u32)
    } else {
        None
    }
}

/// Whether a sample of all targets takes at most so many bytes, where a limit is given (WebGPU,
/// "Calculating color attachment bytes per sample"); targets may be left out.
pub fn sample_fits(formats: &[Option<Format>], most: Option<u32>) -> bool
    ensures { result ≡ sample_fits most formats.now }
{
    let Some(most) = most else {
        return true;
    };
    let mut bytes = 0;
    for format in formats {
        let Some(end) = bytes_within(bytes, *format, most) else {
            return false;
        };
        bytes = end;
    }
    true
}

/// The format of a target, if that is not left out.
fn format_of(target: Option<Target>) -> Option<Format>
    ensures { result ≡ option_map (λ (given : Target). given.format) target }
{
    match target {
        Some(given) => Some(given.format),
        None => None,
    }
}

/// The same of the color targets of a pipeline.
pub fn targets_sample_fits(targets: &[Option<Target>], most: Option<u32>) -> bool
    ensures { result ≡ sample_fits most (target_formats targets.now) }
{
    let Some(most) = most else {
        return true;
    };
    let mut bytes = 0;
    for target in targets {
        let Some(end) = bytes_within(bytes, format_of(*target), most) else {
            return false;
        };
        bytes = end;
    }
    true
}
