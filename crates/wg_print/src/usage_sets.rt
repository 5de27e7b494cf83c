ghost use Rattle.std.specs.Prelude.{◌≡◌, map};
ghost use Rattle.wg_print.specs.Printing.{Puts};
ghost use Rattle.wg_print.specs.Seen.{seen, reference};
ghost use Rattle.wg_print.specs.UsageSets.{words_text, usages_text};

use crate::printing::Out;
use bitflags::Flags;
use wg_io::Sink;
use wg_trace::usages::Usages;

// Puts the words of the usages that the set has, with a '+' between each two.
fn put_words<W: Sink>(out: &mut Out<'_, W>, set: Usages, words: &[(Usages, &str)])
    ensures same_reference { reference out.new ≡ reference out.old }
    ensures text { Puts (seen W.taken W.faults out.old) (seen W.taken W.faults out.new)
        (words_text set.0 (map (λ w. (w.0.0, w.1.now)) words.now)) }
{
    let mut joint = "";
    for (usage, word) in words {
        if set.contains(*usage) {
            out.word(joint);
            out.word(word);
            joint = "+";
        }
    }
}

/// Puts a set of usages.
#[tactic(auto, unfolding(crate::specs::UsageSets::usages_text))]
pub fn put_usages<W: Sink>(out: &mut Out<'_, W>, set: Usages)
    ensures same_reference { reference out.new ≡ reference out.old }
    ensures text { Puts (seen W.taken W.faults out.old) (seen W.taken W.faults out.new)
        (usages_text set) }
{
    put_words(
        out,
        set,
        &[
            (Usages::INPUT, "input"),
            (Usages::CONSTANT, "constant"),
            (Usages::STORAGE, "storage"),
            (Usages::STORAGE_READ, "storage-read"),
            (Usages::ATTACHMENT, "attachment"),
            (Usages::ATTACHMENT_READ, "attachment-read"),
            (Usages::COPY_SRC, "copy-src"),
            (Usages::COPY_DST, "copy-dst"),
            (Usages::QUERY_WRITE, "query-write"),
            (Usages::QUERY_READ, "query-read"),
            (Usages::HOST_READ, "host-read"),
            (Usages::HOST_WRITE, "host-write"),
            (Usages::CLEAR, "clear"),
        ],
    );
}
