//! A report that is printed line by line.
ghost use Rattle.std.specs.Prelude.{◌<◌};

use std::alloc::Global;
use wg_io::{Failed, MemSink, Sink};
use wg_print::{Out, entry, item, line};
use wg_types::NoMemory;
use wg_types::items::Items;
use wg_types::parts::PartRun;
use wg_types::replies::{Answer, Reply};
use wg_types::steps::Item;
use wg_types::usages::Usages;

// Prints a report of one entry and one item.
fn report<W: Sink>(sink: &mut W, reply: &Reply, only: &Item) -> Result<(), Failed> {
    let mut out = Out::new(sink);
    line(&mut out, "history")?;
    entry(&mut out, 0, 0, "createBuffer", reply)?;
    item(&mut out, 0, only)?;
    out.finish()
}

/// What a sink with this room a call answers to a report of a createBuffer and a barrier, and whether it has then
/// taken this.
fn printed(
    alloc: Global,
    most: usize,
    fails: &[u64],
    text: &str,
) -> Result<(Result<(), Failed>, bool), NoMemory>
    requires { 0 < most }
{
    let reply = Reply {
        answer: Answer::Made {
            number: 0,
            valid: true,
        },
        fault: None,
        settled: Items::new(alloc),
    };
    let bar = Item::Bar {
        part: PartRun::Buffer { object: 0 },
        from: None,
        to: Usages::COPY_SRC | Usages::COPY_DST,
    };
    let fails = Vec::from_slice(alloc, fails)?;
    let mut sink = MemSink::new(alloc, 100, most, fails)?;
    let answer = report(&mut sink, &reply, &bar);
    Ok((answer, sink.taken() == text.as_bytes()))
}

#[test]
fn a_report_is_printed(rt: HostRuntime) {
    let want = "history\n0 0 createBuffer made 0 valid\nbar b 0 none copy-src+copy-dst\n";
    assert!(rt; printed(rt.alloc(), 7, &[], want) == Ok((Ok(()), true)));
    // The second write fails.
    assert!(rt; printed(rt.alloc(), 5, &[2], "histo") == Ok((Err(Failed), true)));
}
