// Values that are written: the top record and tables as they stand, the body as the store.
use super::show;
use super::show::Lines;
use cases::list::State;
use cases::tables;
use cases::tables::Columns;
use replay::writes::write;
use std::io;

fn show_into(
    s: State,
    columns: &Columns,
    store: &[u8],
    written: &mut [u8],
    out: &mut Lines,
) -> io::Result<()> {
    show::answer(out, write(s, columns, store, written))?;
    show::number(out, tables::mix_bytes(0, written), b"\n")
}

// The output is a pattern before.
fn show_written(s: State, body: &[u8], columns: &Columns, out: &mut Lines) -> io::Result<()> {
    let o = s.out;
    if 65536 < o {
        return Ok(());
    }
    let mut written = [171u8; 65536];
    show_into(
        s,
        columns,
        tables::front_bytes(body, s.length),
        &mut written[0..o],
        out,
    )
}

// As it stands (w), with a column replaced (y), or only the column is replaced (x): of the top record (0) or of a table.
pub fn command(
    s: State,
    letter: u8,
    v: &[usize; 4096],
    body: &[u8],
    columns: &mut Columns,
    out: &mut Lines,
) -> io::Result<()> {
    // no column stands at 65,536
    let at = tables::pick(letter == b'w', 65536, tables::place(v[0], v[1]));
    let old = tables::change_column(columns, at, tables::low_column(v[2]));
    if letter == b'x' {
        return Ok(());
    }
    show_written(s, body, columns, out)?;
    tables::change_column(columns, at, old);
    Ok(())
}
