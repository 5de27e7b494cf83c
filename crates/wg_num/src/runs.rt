//! Runs of numbers, each from its first number up to but not including its second.
ghost use Rattle.std.specs.Prelude.{◌≡◌, ℕ, ◌<◌, ◌++◌, ◌&&◌, not, IfOk, OnOk, IsTrue, ◌↔◌};
ghost use Rattle.wg_num.specs.Runs.{AllIn, AreApart, covers_run, cut_runs, full_run, in_run, insert_run, is_in, missing_runs, with_run};

use std::alloc::Global;
use wg_entry::NoMemory;

/// Adds runs with one more at the end. Where it meets others they are joined.
fn push_with(
    out: &mut Vec<(u64, u64)>,
    runs: &[(u64, u64)],
    lo: u64,
    hi: u64,
) -> Result<(), NoMemory>
    ensures { OnOk result (out.new.items ≡ out.old.items ++ with_run lo hi runs.now) }
{
    let mut lo = lo;
    let mut hi = hi;
    for (i, x) in runs.iter().enumerate() {
        if x.1 < lo {
            out.push(*x)?;
        } else if hi < x.0 {
            out.push((lo, hi))?;
            out.extend_from_slice(&runs[i..])?;
            return Ok(());
        } else {
            lo = lo.min(x.0);
            hi = hi.max(x.1);
        }
    }
    out.push((lo, hi))?;
    Ok(())
}

/// Runs with one more. Where it meets others they are joined.
pub fn with_run(
    alloc: Global,
    runs: &[(u64, u64)],
    lo: u64,
    hi: u64,
) -> Result<Vec<(u64, u64)>, NoMemory>
    requires { AreApart 0 runs.now }
    ensures { IfOk result (λ v. v.items ≡ with_run lo hi runs.now) }
{
    let before = runs.partition_point(|x| x.1 < lo);
    let mut out = Vec::with_capacity(alloc, runs.len().saturating_add(1))?;
    out.extend_from_slice(&runs[..before])?;
    push_with(&mut out, &runs[before..], lo, hi)?;
    Ok(out)
}

/// Adds a run at the end, if it has a number.
fn push_full(out: &mut Vec<(u64, u64)>, lo: u64, hi: u64) -> Result<(), NoMemory>
    ensures { OnOk result (out.new.items ≡ out.old.items ++ full_run lo hi) }
{
    if lo < hi {
        out.push((lo, hi))?;
        return Ok(());
    }
    Ok(())
}

/// Adds runs without the numbers of a run at the end.
fn push_cut(
    out: &mut Vec<(u64, u64)>,
    runs: &[(u64, u64)],
    lo: u64,
    hi: u64,
) -> Result<(), NoMemory>
    requires apart { AreApart 0 runs.now }
    requires full { lo < hi }
    ensures { OnOk result (out.new.items ≡ out.old.items ++ cut_runs lo hi runs.now) }
{
    for (i, x) in runs.iter().enumerate() {
        if hi <= x.0 {
            out.extend_from_slice(&runs[i..])?;
            return Ok(());
        }
        push_full(out, x.0, x.1.min(lo))?;
        push_full(out, x.0.max(hi), x.1)?;
    }
    Ok(())
}

/// Runs without the numbers of a run, which must not be empty.
pub fn cut_runs(
    alloc: Global,
    runs: &[(u64, u64)],
    lo: u64,
    hi: u64,
) -> Result<Vec<(u64, u64)>, NoMemory>
    requires apart { AreApart 0 runs.now }
    requires full { lo < hi }
    ensures { IfOk result (λ v. v.items ≡ cut_runs lo hi runs.now) }
{
    let before = runs.partition_point(|x| x.1 <= lo);
    let mut out = Vec::with_capacity(alloc, runs.len().saturating_add(1))?;
    out.extend_from_slice(&runs[..before])?;
    push_cut(&mut out, &runs[before..], lo, hi)?;
    Ok(out)
}

/// Adds the runs of the numbers of a run that are not in other runs at the end.
fn push_missing(
    out: &mut Vec<(u64, u64)>,
    runs: &[(u64, u64)],
    lo: u64,
    hi: u64,
) -> Result<(), NoMemory>
    requires { AreApart 0 runs.now }
    ensures { OnOk result (out.new.items ≡ out.old.items ++ missing_runs lo hi runs.now) }
{
    let mut lo = lo;
    for x in runs {
        if hi <= x.0 {
            return push_full(out, lo, hi);
        }
        push_full(out, lo, x.0)?;
        lo = lo.max(x.1);
    }
    push_full(out, lo, hi)
}

/// The runs of the numbers of a run that are not in other runs.
pub fn missing_runs(
    alloc: Global,
    runs: &[(u64, u64)],
    lo: u64,
    hi: u64,
) -> Result<Vec<(u64, u64)>, NoMemory>
    requires { AreApart 0 runs.now }
    ensures runs { IfOk result (λ v. v.items ≡ missing_runs lo hi runs.now) }
    ensures members { IfOk result
        (λ v. (n : ℕ) → is_in v.items n ≡ (in_run lo hi n && not (is_in runs.now n))) }
{
    let before = runs.partition_point(|x| x.1 <= lo);
    let mut out = Vec::new(alloc);
    push_missing(&mut out, &runs[before..], lo, hi)?;
    Ok(out)
}

/// Whether all numbers of a run are in runs, so that these stay as they are with it.
pub fn covers_run(runs: &[(u64, u64)], lo: u64, hi: u64) -> bool
    requires { AreApart 0 runs.now }
    ensures test { result ≡ covers_run lo hi runs.now }
    ensures all { IsTrue result ↔ AllIn lo hi runs.now }
    ensures same { IsTrue result → insert_run lo hi runs.now ≡ runs.now }
{
    if hi <= lo {
        return true;
    }
    let at = runs.partition_point(|x| x.1 < hi);
    at < runs.len() && runs[at].0 <= lo
}
