//! The first numbers of a range that are in no run.
ghost use Rattle.std.specs.Prelude.{◌≡◌, not};
ghost use Rattle.wg_num.specs.Runs.{AreApart, is_in};
ghost use Rattle.wg_cbtrack.specs.Gaps.{gap, first_gap, FindsFirst};

/// The numbers of a range, if it has some.
fn gap(lo: u64, hi: u64) -> Option<(u64, u64)>
    ensures { result ≡ gap lo hi }
{
    if lo < hi {
        return Some((lo, hi));
    }
    None
}

/// The first numbers of a range that are in none of these runs, which rise.
fn gap_in(runs: &[(u64, u64)], lo: u64, hi: u64) -> Option<(u64, u64)>
    ensures { result ≡ first_gap lo hi runs.now }
{
    let mut lo = lo;
    for x in runs {
        if lo < x.0 {
            return gap(lo, x.0.min(hi));
        }
        lo = lo.max(x.1);
    }
    gap(lo, hi)
}

/// The first numbers of a range that are in no run, as many as stand together.
pub fn first_gap(runs: &[(u64, u64)], lo: u64, hi: u64) -> Option<(u64, u64)>
    requires { AreApart 0 runs.now }
    ensures { FindsFirst (λ n. not (is_in runs.now n)) lo hi result }
{
    let before = runs.partition_point(|x| x.1 <= lo);
    gap_in(&runs[before..], lo, hi)
}
