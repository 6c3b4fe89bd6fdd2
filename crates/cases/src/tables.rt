// Bytes and columns that are put, changed, set to a fixed pattern and summed up to a digest.
ghost use Rattle.std.specs.Prelude.{◌<◌};

use super::list::{Kind, State};

// A body, or a line of the list. Memory is fixed, without a heap: the lengths in use stand in `State`.
pub type Bytes = [u8; 65536];

// The top record (table 0), the five tables, and what measuring is lent (table 6), each from its own place on.
pub type Columns = [u16; 40960];

fn start(table: usize) -> usize
    ensures { result < 40960 }
{
    match table {
        0 => 0,
        1 => 4096,
        2 => 8192,
        3 => 20480,
        4 => 24576,
        5 => 28672,
        _ => 36864,
    }
}

// Where a column of a table stands.
pub fn place(table: usize, at: usize) -> usize {
    if at < 12288 { start(table) + at } else { 65536 }
}

// What measuring is lent: a column more than it needs, and three for the kinds with fewer tables.
pub fn rows_lent(kind: Kind) -> usize {
    match kind {
        Kind::Scene => 6,
        Kind::DrcLoudness => 5,
        _ => 3,
    }
}

pub fn pick(first: bool, a: usize, b: usize) -> usize {
    if first { a } else { b }
}

pub fn column(columns: &Columns, i: usize) -> u16 {
    if i < 40960 { columns[i] } else { 0 }
}

pub fn low_byte(x: usize) -> u8 {
    (x % 256) as u8
}

pub fn low_column(x: usize) -> u16 {
    (x % 65536) as u16
}

// Where the bytes end.
pub fn put_bytes(body: &mut Bytes, at: usize, n: usize, v: &[usize; 4096]) -> usize {
    let mut to = at;
    for x in v.iter().take(n) {
        if 65536 <= to {
            return to;
        }
        body[to] = low_byte(*x);
        to += 1;
    }
    to
}

pub fn put_run(body: &mut Bytes, at: usize, count: usize, byte: usize) -> usize {
    let mut to = at;
    for _ in 0..count {
        if 65536 <= to {
            return to;
        }
        body[to] = low_byte(byte);
        to += 1;
    }
    to
}

// How many columns there are.
pub fn put_columns(columns: &mut Columns, table: usize, n: usize, v: &[usize; 4096]) -> usize {
    let first = start(table);
    let count = n.min(4096);
    for i in 0..count {
        if 40960 <= first + i {
            return i;
        }
        columns[first + i] = low_column(v[i]);
    }
    count
}

// What was there before.
pub fn change_byte(body: &mut Bytes, at: usize, byte: u8) -> u8 {
    if at < 65536 {
        let old = body[at];
        body[at] = byte;
        return old;
    }
    0
}

pub fn change_column(columns: &mut Columns, at: usize, column: u16) -> u16 {
    if at < 40960 {
        let old = columns[at];
        columns[at] = column;
        return old;
    }
    0
}

// ---- parts that are lent, none where a line asks for more than there is

pub fn part(columns: &Columns, table: usize, n: usize) -> &[u16] {
    let all = &columns[..];
    let at = start(table);
    if n <= 40960 - at {
        let end = at + n;
        return &all[at..end];
    }
    &all[0..0]
}

pub fn front_mut(table: &mut [u16], n: usize) -> &mut [u16] {
    if n <= table.len() {
        return &mut table[0..n];
    }
    &mut table[0..0]
}

pub fn front_bytes(bytes: &[u8], n: usize) -> &[u8] {
    if n <= bytes.len() {
        return &bytes[0..n];
    }
    &bytes[0..0]
}

// ---- before a call

fn fill_part(columns: &mut Columns, table: usize, n: usize) {
    for c in columns[start(table)..].iter_mut().take(n) {
        *c = 43981;
    }
}

// All lent columns.
pub fn fill_columns(s: State, columns: &mut Columns) {
    let n = s.lent;
    fill_part(columns, 0, n[0]);
    fill_part(columns, 1, n[1]);
    fill_part(columns, 2, n[2]);
    fill_part(columns, 3, n[3]);
    fill_part(columns, 4, n[4]);
    fill_part(columns, 5, n[5]);
    fill_part(columns, 6, rows_lent(s.kind));
}

// ---- after it

// The first n columns of a table.
pub fn copy_columns(columns: &mut Columns, table: usize, from: &[u16], n: usize) {
    let to = columns[start(table)..].iter_mut();
    for (c, x) in to.zip(from.iter().take(n)) {
        *c = *x;
    }
}

pub fn mix(digest: u64, x: u64) -> u64 {
    ((digest % 4294967291) * 65599 + x % 4294967291) % 4294967291
}

pub fn mix_bytes(digest: u64, bytes: &[u8]) -> u64 {
    bytes.iter().fold(digest, |d, b| mix(d, *b as u64))
}

fn mix_columns(digest: u64, columns: &Columns, table: usize, n: usize) -> u64 {
    let all = columns[start(table)..].iter();
    all.take(n).fold(digest, |d, c| mix(d, *c as u64))
}

// Of all lent columns.
pub fn digest(s: State, columns: &Columns) -> u64 {
    let n = s.lent;
    let top = mix_columns(0, columns, 0, n[0]);
    let one = mix_columns(top, columns, 1, n[1]);
    let two = mix_columns(one, columns, 2, n[2]);
    let three = mix_columns(two, columns, 3, n[3]);
    let four = mix_columns(three, columns, 4, n[4]);
    let five = mix_columns(four, columns, 5, n[5]);
    mix_columns(five, columns, 6, rows_lent(s.kind))
}
