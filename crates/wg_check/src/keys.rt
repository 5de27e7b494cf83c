//! Where cells stand in printed order.
ghost use Rattle.std.specs.Prelude.{◌≡◌, ◌≤◌, ◌<◌, IfSome};
ghost use Rattle.std.specs.Ordering.{is_lt, is_gt};
ghost use Rattle.wg_check.specs.Cells.{place_in};
ghost use Rattle.wg_check.specs.Keys.{key};
ghost use Rattle.wg_check.specs.Segments.{before};

use std::cmp::Ordering;

/// Where a cell stands in printed order: by its object, its sort (bytes, queries, layers, slices), its
/// aspect, its mip level and its place there.
#[derive(Clone, Copy)]
pub struct Key {
    pub object: u64,
    pub sort: u64,
    pub aspect: u64,
    pub mip: u64,
    pub at: u64,
}

impl Key {
    /// The key of these numbers.
    pub fn new(object: u64, sort: u64, aspect: u64, mip: u64, at: u64) -> Key
        ensures { result ≡ key object sort aspect mip at }
    {
        Key {
            object,
            sort,
            aspect,
            mip,
            at,
        }
    }

    /// Its place, if it stands in a line, of an object by sort, aspect and mip level, from `lo` up to but
    /// not including `hi`.
    pub fn place_in(&self, object: u64, line: (u64, u64, u64), lo: u64, hi: u64) -> Option<u64>
        ensures place { result ≡ place_in self.now object line.0 line.1 line.2 lo hi }
        ensures within { IfSome result (λ at. (lo ≤ at) × (at < hi)) }
    {
        if self.object != object {
            return None;
        }
        if self.sort != line.0 {
            return None;
        }
        if self.aspect != line.1 {
            return None;
        }
        if self.mip != line.2 {
            return None;
        }
        if lo <= self.at && self.at < hi {
            return Some(self.at);
        }
        None
    }

    /// Whether it stands before another.
    pub fn is_before(&self, other: &Key) -> bool
        ensures { result ≡ before self.now other.now }
    {
        if self.object != other.object {
            return self.object < other.object;
        }
        if self.sort != other.sort {
            return self.sort < other.sort;
        }
        if self.aspect != other.aspect {
            return self.aspect < other.aspect;
        }
        if self.mip != other.mip {
            return self.mip < other.mip;
        }
        self.at < other.at
    }
}

/// The order of keys.
pub fn by_place(key: &Key, other: &Key) -> Ordering
    ensures less { is_lt result ≡ before key.now other.now }
    ensures greater { is_gt result ≡ before other.now key.now }
{
    if key.is_before(other) {
        Ordering::Less
    } else if other.is_before(key) {
        Ordering::Greater
    } else {
        Ordering::Equal
    }
}
