// Bodies that are read, measured and tallied.
use super::show;
use super::show::Lines;
use cases::list::State;
use cases::tables;
use cases::tables::{Bytes, Columns};
use replay::reads::ask;
use std::io;

// A line for each front, from `first` bytes on and below `last`.
fn show_fronts(
    s: State,
    first: usize,
    last: usize,
    body: &[u8],
    columns: &mut Columns,
    out: &mut Lines,
) -> io::Result<()> {
    for n in first..last {
        let a = ask(s, tables::front_bytes(body, n), columns);
        show::answer(out, a.read)?;
        show::answer(out, a.measured)?;
        show::answer(out, a.tallied)?;
        show::number(out, a.digest, b"\n")?;
    }
    Ok(())
}

// ---- every body of so many bytes, at most two

fn show_every(
    s: State,
    n: usize,
    count: usize,
    columns: &mut Columns,
    out: &mut Lines,
) -> io::Result<()> {
    let mut digest: u64 = 0;
    for i in 0..count {
        let body = [tables::low_byte(i), tables::low_byte(i / 256)];
        let a = ask(s, tables::front_bytes(&body, n), columns);
        let read = tables::mix(digest, a.read);
        let measured = tables::mix(read, a.measured);
        digest = tables::mix(tables::mix(measured, a.tallied), a.digest);
    }
    show::number(out, digest, b"\n")
}

// The whole body (r), with one byte replaced (d), its first bytes (n), or all of its cuts (c).
pub fn command(
    s: State,
    letter: u8,
    v: &[usize; 4096],
    body: &mut Bytes,
    columns: &mut Columns,
    out: &mut Lines,
) -> io::Result<()> {
    if letter == b's' {
        return show_every(s, v[0], v[1], columns, out);
    }
    let last = tables::pick(letter == b'n', v[0], s.length) % 65537;
    let first = tables::pick(letter == b'c', 0, last);
    // no byte stands at 65,536
    let at = tables::pick(letter == b'd', v[0], 65536);
    let old = tables::change_byte(body, at, tables::low_byte(v[1]));
    show_fronts(s, first, last + 1, &body[..], columns, out)?;
    tables::change_byte(body, at, old);
    Ok(())
}
