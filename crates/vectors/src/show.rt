// Lines of numbers on standard output, which are gathered and written in pieces.
ghost use Rattle.std.specs.Prelude.{◌++◌, decimal, OnOk};
ghost use Rattle.std.specs.Io.KnownBytes.{Appends};
ghost use Rattle.vectors.specs.Shown.{answer_text};

use std::io;
use std::io::{BufWriter, Stdout, Write};

pub type Lines = BufWriter<Stdout>;

pub fn number<W: Write>(out: &mut W, n: u64, end: &[u8]) -> io::Result<()>
    ensures { OnOk result (Appends (W.contents out.old) (W.contents out.new) (decimal n ++ end.now)) }
{
    write!(out, "{n}")?;
    out.write_all(end)
}

// Number and value of an answer; number 3 has two values, the table and its rows.
pub fn answer<W: Write>(out: &mut W, code: u64) -> io::Result<()>
    ensures { OnOk result (Appends (W.contents out.old) (W.contents out.new) (answer_text code)) }
{
    let n = code % 256;
    let value = code / 256;
    number(out, n, b" ")?;
    if n == 3 {
        number(out, value % 16777216, b" ")?;
        number(out, value / 16777216, b" ")
    } else {
        number(out, value, b" ")
    }
}
