ghost use Rattle.std.specs.Prelude.{OnOk, OnErr};
ghost use Rattle.wg_print.specs.Pieces.{piece_text, pieces_text, line_text};
ghost use Rattle.wg_print.specs.Printing.{Puts, Adds, Stops};
ghost use Rattle.wg_print.specs.Seen.{seen, reference, IsLive};
ghost use Rattle.std.specs.Prelude.{◌≡◌};

use crate::printing::Out;
use wg_io::{Failed, Sink};

/// A word or a number of a line.
#[derive(Clone, Copy)]
pub enum Piece<'a> {
    Word(&'a str),
    Number(u64),
}

fn put_piece<W: Sink>(out: &mut Out<'_, W>, piece: Piece<'_>)
    ensures same_reference { reference out.new ≡ reference out.old }
    ensures text { Puts (seen W.taken W.faults out.old) (seen W.taken W.faults out.new)
        (piece_text piece.entry) }
{
    match piece {
        Piece::Word(word) => out.word(word),
        Piece::Number(number) => out.number(number),
    }
}

/// Puts pieces, with nothing between them.
pub fn put_all<W: Sink>(out: &mut Out<'_, W>, pieces: &[Piece<'_>])
    ensures same_reference { reference out.new ≡ reference out.old }
    ensures text { Puts (seen W.taken W.faults out.old) (seen W.taken W.faults out.new)
        (pieces_text pieces.now) }
{
    for piece in pieces {
        put_piece(out, *piece);
    }
}

/// Puts a text and the end of its line. Once a write has failed this does nothing.
pub fn put_line<W: Sink>(out: &mut Out<'_, W>, text: &str)
    ensures same_reference { reference out.new ≡ reference out.old }
    ensures text { Puts (seen W.taken W.faults out.old) (seen W.taken W.faults out.new)
        (line_text text.now) }
{
    put_all(out, &[Piece::Word(text), Piece::Word("\n")]);
}

/// Prints a text and the end of its line.
pub fn line<W: Sink>(out: &mut Out<'_, W>, text: &str) -> Result<(), Failed>
    requires { IsLive out.old }
    ensures same_reference { reference out.new ≡ reference out.old }
    ensures added { OnOk result (Adds
        (seen W.taken W.faults out.old) (seen W.taken W.faults out.new)
        (line_text text.now)) }
    ensures stopped { OnErr result (Stops
        (seen W.taken W.faults out.old) (seen W.taken W.faults out.new)
        (line_text text.now)) }
{
    put_line(out, text);
    out.check()
}
