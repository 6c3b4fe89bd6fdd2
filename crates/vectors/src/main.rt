// Answers the list of cases on standard input, a line of answers for each case, by calling the library for hosts. docs/ORACLE.md says what the
// letters of the list mean, and where the answers come from that these are compared with.
#![tactic(auto)]

mod reads;
mod show;
mod writes;

use cases::list::{Command, Kind, State};
use cases::tables::{Bytes, Columns};
use cases::{list, tables};
use show::Lines;
use std::io;
use std::io::{BufWriter, Write};

// The list comes in pieces, at most 64.
fn main(rt: HostRuntime) -> io::Result<()> {
    let mut stdin = rt.stdin();
    let mut out = BufWriter::new(rt.alloc(), rt.stdout())?;
    let mut piece = [0u8; 65536];
    let mut line: Bytes = [0; 65536];
    let mut body: Bytes = [0; 65536];
    let mut columns = [0u16; 40960];
    let mut s = State {
        line: 0,
        kind: Kind::Other,
        length: 0,
        lent: [0; 6],
        out: 0,
    };
    for _ in 0..64 {
        let n = input::fill(&mut stdin, &mut piece)?;
        s = run(s, &piece[..n], &mut line, &mut body, &mut columns, &mut out)?;
    }
    out.flush()
}

fn run(
    s: State,
    piece: &[u8],
    line: &mut Bytes,
    body: &mut Bytes,
    columns: &mut Columns,
    out: &mut Lines,
) -> io::Result<State> {
    let mut t = s;
    for b in piece {
        t = byte(t, *b, line, body, columns, out)?;
    }
    Ok(t)
}

// A byte of a line, or its end.
fn byte(
    s: State,
    b: u8,
    line: &mut Bytes,
    body: &mut Bytes,
    columns: &mut Columns,
    out: &mut Lines,
) -> io::Result<State> {
    let n = s.line;
    let mut t = s;
    if 65536 <= n {
        return Ok(s);
    }
    if b != b'\n' {
        line[n] = b;
        t.line = n + 1;
        return Ok(t);
    }
    t.line = 0;
    step(t, tables::front_bytes(&line[..], n), body, columns, out)
}

// A line is a letter and numbers: bytes in hexadecimal digits, all others in decimal ones.
fn step(
    s: State,
    line: &[u8],
    body: &mut Bytes,
    columns: &mut Columns,
    out: &mut Lines,
) -> io::Result<State> {
    if line.len() == 0 {
        return Ok(s);
    }
    let letter = line[0];
    let mut v = [0usize; 4096];
    let n = list::numbers(line, list::is_hex(letter), &mut v);
    match Command::from(letter) {
        Command::Body => Ok(list::with_bytes(s, letter, n, &v, body)),
        Command::Columns => Ok(list::with_columns(s, letter, n, &v, columns)),
        Command::Numbers => Ok(list::with_numbers(s, letter, &v)),
        Command::Written => {
            writes::command(s, letter, &v, &body[..], columns, out)?;
            Ok(s)
        }
        Command::Read => {
            reads::command(s, letter, &v, body, columns, out)?;
            Ok(s)
        }
        Command::Nothing => Ok(s),
    }
}
