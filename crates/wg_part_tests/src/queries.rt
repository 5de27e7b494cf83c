//! The queries of a render pass, begun and ended with their rules in one call each.
use std::alloc::Global;
use wg_queries::Occlusion;
use wg_types::NoMemory;

type Rules = [Result<Option<u16>, NoMemory>; 8];

/// An end where no query is active, a begin without a set, and in a set of two: a begin past the last, the begin
/// of the last, that of the first while the last is active, its end, its begin once more, and that of the first.
fn ask(queries: &mut Occlusion) -> Rules {
    [
        Ok(queries.end()),
        queries.begin(None, 0),
        queries.begin(Some(2), 2),
        queries.begin(Some(2), 1),
        queries.begin(Some(2), 0),
        Ok(queries.end()),
        queries.begin(Some(2), 1),
        queries.begin(Some(2), 0),
    ]
}

/// The rules that these break, and whether a query is active at last.
fn of_pass(alloc: Global) -> (Rules, bool) {
    let mut queries = Occlusion::new(alloc);
    let rules = ask(&mut queries);
    (rules, queries.is_active())
}

#[test]
fn queries_begin_and_end(rt: HostRuntime) {
    let rules = [
        Ok(Some(364)),
        Ok(Some(360)),
        Ok(Some(361)),
        Ok(None),
        Ok(Some(362)),
        Ok(None),
        Ok(Some(363)),
        Ok(None),
    ];
    assert!(rt; of_pass(rt.alloc()) == (rules, true));
}
