ghost use Rattle.std.specs.Prelude.{◌≡◌, ◌++◌, OnOk, OnErr, codes, decimal};
ghost use Rattle.std.specs.List.{flat_map};
ghost use Rattle.wg_print.specs.Items.{place_text, from_text, bar_text, use_text, access_text, step_text, free_text, item_text};
ghost use Rattle.wg_print.specs.Parts.{part_text, cells_text};
ghost use Rattle.wg_print.specs.Printing.{Puts, Adds, Stops};
ghost use Rattle.wg_print.specs.Seen.{seen, reference, IsLive};

use crate::pieces::{Piece, put_all};
use crate::printing::Out;
use crate::usage_sets::put_usages;
use crate::words::{access_kind_word, aspect_word, sort_word};
use wg_io::{Failed, Sink};
use wg_trace::parts::{AccessKind, Cells, PartRun};
use wg_trace::steps::{Item, Sort, Step, StepPlace};
use wg_trace::usages::Usages;

fn put_part<W: Sink>(out: &mut Out<'_, W>, part: PartRun)
    ensures same_reference { reference out.new ≡ reference out.old }
    ensures text { Puts (seen W.taken W.faults out.old) (seen W.taken W.faults out.new)
        (part_text part) }
{
    match part {
        PartRun::Buffer { object } => put_all(out, &[Piece::Word("b "), Piece::Number(object)]),
        PartRun::Queries { object } => put_all(out, &[Piece::Word("q "), Piece::Number(object)]),
        PartRun::Texture {
            object,
            aspect,
            mip,
            lo,
            hi,
        } => put_all(
            out,
            &[
                Piece::Word("t "),
                Piece::Number(object),
                Piece::Word(" "),
                Piece::Word(aspect_word(aspect)),
                Piece::Word(" "),
                Piece::Number(u64::from(mip)),
                Piece::Word(" "),
                Piece::Number(u64::from(lo)),
                Piece::Word(" "),
                Piece::Number(u64::from(hi)),
            ],
        ),
    }
}

/// Puts a run of cells. Once a write has failed this does nothing.
pub fn put_cells<W: Sink>(out: &mut Out<'_, W>, cells: Cells)
    ensures same_reference { reference out.new ≡ reference out.old }
    ensures text { Puts (seen W.taken W.faults out.old) (seen W.taken W.faults out.new)
        (cells_text cells) }
{
    match cells {
        Cells::Bytes { object, lo, hi } => put_run(out, "b ", object, lo, hi),
        Cells::Queries { object, lo, hi } => {
            put_run(out, "q ", object, u64::from(lo), u64::from(hi))
        }
        Cells::Layers {
            object,
            aspect,
            mip,
            lo,
            hi,
        } => put_part(
            out,
            PartRun::Texture {
                object,
                aspect,
                mip,
                lo,
                hi,
            },
        ),
        Cells::Slices {
            object,
            mip,
            lo,
            hi,
        } => put_all(
            out,
            &[
                Piece::Word("s "),
                Piece::Number(object),
                Piece::Word(" color "),
                Piece::Number(u64::from(mip)),
                Piece::Word(" "),
                Piece::Number(u64::from(lo)),
                Piece::Word(" "),
                Piece::Number(u64::from(hi)),
            ],
        ),
    }
}

// Puts a run of an object's bytes or queries.
fn put_run<W: Sink>(out: &mut Out<'_, W>, sort: &str, object: u64, lo: u64, hi: u64)
    ensures same_reference { reference out.new ≡ reference out.old }
    ensures text { Puts (seen W.taken W.faults out.old) (seen W.taken W.faults out.new)
        (sort.now ++ decimal object ++ codes " " ++ decimal lo ++ codes " " ++ decimal hi) }
{
    put_all(
        out,
        &[
            Piece::Word(sort),
            Piece::Number(object),
            Piece::Word(" "),
            Piece::Number(lo),
            Piece::Word(" "),
            Piece::Number(hi),
        ],
    );
}

fn put_from<W: Sink>(out: &mut Out<'_, W>, from: Option<Usages>)
    ensures same_reference { reference out.new ≡ reference out.old }
    ensures text { Puts (seen W.taken W.faults out.old) (seen W.taken W.faults out.new)
        (from_text from) }
{
    match from {
        Some(set) => put_usages(out, set),
        None => out.word("none"),
    }
}

fn put_bar<W: Sink>(out: &mut Out<'_, W>, part: PartRun, from: Option<Usages>, to: Usages)
    ensures same_reference { reference out.new ≡ reference out.old }
    ensures text { Puts (seen W.taken W.faults out.old) (seen W.taken W.faults out.new)
        (bar_text part from to) }
{
    out.word("bar ");
    put_part(out, part);
    out.word(" ");
    put_from(out, from);
    out.word(" ");
    put_usages(out, to);
    out.word("\n");
}

fn put_place<W: Sink>(out: &mut Out<'_, W>, place: StepPlace)
    ensures same_reference { reference out.new ≡ reference out.old }
    ensures text { Puts (seen W.taken W.faults out.old) (seen W.taken W.faults out.new)
        (place_text place) }
{
    match place {
        StepPlace::Op(number) => put_all(out, &[Piece::Word("op "), Piece::Number(number)]),
        StepPlace::Host(entry) => put_all(out, &[Piece::Word("host "), Piece::Number(entry)]),
    }
}

fn put_use<W: Sink>(out: &mut Out<'_, W>, part: PartRun, set: Usages)
    ensures same_reference { reference out.new ≡ reference out.old }
    ensures text { Puts (seen W.taken W.faults out.old) (seen W.taken W.faults out.new)
        (use_text (part, set)) }
{
    out.word("use ");
    put_part(out, part);
    out.word(" ");
    put_usages(out, set);
    out.word("\n");
}

fn put_uses<W: Sink>(out: &mut Out<'_, W>, uses: &[(PartRun, Usages)])
    ensures same_reference { reference out.new ≡ reference out.old }
    ensures text { Puts (seen W.taken W.faults out.old) (seen W.taken W.faults out.new)
        (flat_map use_text uses.now) }
{
    for (part, set) in uses {
        put_use(out, *part, *set);
    }
}

fn put_access<W: Sink>(out: &mut Out<'_, W>, cells: Cells, kind: AccessKind)
    ensures same_reference { reference out.new ≡ reference out.old }
    ensures text { Puts (seen W.taken W.faults out.old) (seen W.taken W.faults out.new)
        (access_text (cells, kind)) }
{
    put_all(
        out,
        &[
            Piece::Word("acc "),
            Piece::Word(access_kind_word(kind)),
            Piece::Word(" "),
        ],
    );
    put_cells(out, cells);
    out.word("\n");
}

fn put_accesses<W: Sink>(out: &mut Out<'_, W>, accesses: &[(Cells, AccessKind)])
    ensures same_reference { reference out.new ≡ reference out.old }
    ensures text { Puts (seen W.taken W.faults out.old) (seen W.taken W.faults out.new)
        (flat_map access_text accesses.now) }
{
    for (cells, kind) in accesses {
        put_access(out, *cells, *kind);
    }
}

fn put_step<W: Sink>(out: &mut Out<'_, W>, number: u64, step: &Step)
    ensures same_reference { reference out.new ≡ reference out.old }
    ensures text { Puts (seen W.taken W.faults out.old) (seen W.taken W.faults out.new)
        (step_text number step.now) }
{
    put_all(
        out,
        &[
            Piece::Word("step "),
            Piece::Number(number),
            Piece::Word(" "),
        ],
    );
    put_place(out, step.place);
    put_all(
        out,
        &[
            Piece::Word(" "),
            Piece::Word(step.name.as_str()),
            Piece::Word("\n"),
        ],
    );
    put_uses(out, step.uses.as_slice());
    put_accesses(out, step.accesses.as_slice());
}

fn put_free<W: Sink>(out: &mut Out<'_, W>, object: u64, sort: Sort)
    ensures same_reference { reference out.new ≡ reference out.old }
    ensures text { Puts (seen W.taken W.faults out.old) (seen W.taken W.faults out.new)
        (free_text object sort) }
{
    put_all(
        out,
        &[
            Piece::Word("free "),
            Piece::Word(sort_word(sort)),
            Piece::Word(" "),
            Piece::Number(object),
            Piece::Word("\n"),
        ],
    );
}

/// Puts the lines of an item of a trace. Once a write has failed this does nothing.
#[tactic(auto, unfolding(crate::specs::Items::item_text))]
pub fn put_item<W: Sink>(out: &mut Out<'_, W>, number: u64, item: &Item)
    ensures same_reference { reference out.new ≡ reference out.old }
    ensures text { Puts (seen W.taken W.faults out.old) (seen W.taken W.faults out.new)
        (item_text number item.now) }
{
    match item {
        Item::Bar { part, from, to } => put_bar(out, *part, *from, *to),
        Item::Step(step) => put_step(out, number, step),
        Item::Free { object, sort } => put_free(out, *object, *sort),
    }
}

/// Prints an item of a trace. If it is a step, `step` is its number.
pub fn item<W: Sink>(out: &mut Out<'_, W>, step: u64, item: &Item) -> Result<(), Failed>
    requires { IsLive out.old }
    ensures same_reference { reference out.new ≡ reference out.old }
    ensures added { OnOk result (Adds
        (seen W.taken W.faults out.old) (seen W.taken W.faults out.new)
        (item_text step item.now)) }
    ensures stopped { OnErr result (Stops
        (seen W.taken W.faults out.old) (seen W.taken W.faults out.new)
        (item_text step item.now)) }
{
    put_item(out, step, item);
    out.check()
}
