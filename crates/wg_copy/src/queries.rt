//! The rules of resolving query sets.
ghost use Rattle.std.specs.Prelude.{◌≡◌, ◌+◌, ◌&&◌, nat_lt, nat_le};
ghost use Rattle.wg_model.specs.Rules.{first_unmet};
ghost use Rattle.wg_model.specs.Commands.{queries_of, resolve_set_rules};

use crate::buffers::fits;
use wg_formats::{buffer_of, queries_of};
use wg_rules::{
    RESOLVED_BUFFER_HAS_QUERY_RESOLVE, RESOLVED_OFFSET_IS_ALIGNED, RESOLVED_QUERIES_ARE_IN_SET,
    RESOLVED_RANGE_FITS_BUFFER,
};
use wg_types::handles::Handle;

/// Whether these queries are queries of a set: the first of them is one, and so are all.
fn are_queries(queries: &Handle, first: u32, count: u32) -> bool
    ensures { result ≡ (nat_lt first (queries_of queries.now).count && nat_le (first + count) (queries_of queries.now).count) }
{
    let known = queries_of(queries).count;
    first < known && u64::from(first) + u64::from(count) <= u64::from(known)
}

/// The first unmet rule of resolveQuerySet.
pub fn check_resolve(
    queries: &Handle,
    first: u32,
    count: u32,
    buffer: &Handle,
    offset: u64,
) -> Option<u16>
    ensures { result ≡ first_unmet (resolve_set_rules queries.now first count buffer.now offset) }
{
    let info = buffer_of(buffer);
    if info.usage & 512 == 0 {
        return Some(RESOLVED_BUFFER_HAS_QUERY_RESOLVE);
    }
    if !are_queries(queries, first, count) {
        return Some(RESOLVED_QUERIES_ARE_IN_SET);
    }
    if offset % 256 != 0 {
        return Some(RESOLVED_OFFSET_IS_ALIGNED);
    }
    if !fits(offset, 8 * u64::from(count), info.size) {
        return Some(RESOLVED_RANGE_FITS_BUFFER);
    }
    None
}
