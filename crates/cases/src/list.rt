// What a line of the list says, and what the lines before have set.
use super::tables;
use super::tables::{Bytes, Columns};

// The kind of a body, by document 01's numbers; another number names none.
#[derive(Clone, Copy, PartialEq, Eq)]
pub enum Kind {
    Base,
    Scene,
    TextLabel,
    MultiStream,
    DrcLoudness,
    Other,
}

impl From<usize> for Kind {
    fn from(number: usize) -> Kind {
        match number {
            1 => Kind::Base,
            2 => Kind::Scene,
            3 => Kind::TextLabel,
            4 => Kind::MultiStream,
            5 => Kind::DrcLoudness,
            _ => Kind::Other,
        }
    }
}

// The bytes of the line so far, the kind, the bytes of the body, the columns that are lent of the top record and the five tables, and the bytes of the output.
#[derive(Clone, Copy, PartialEq, Eq)]
pub struct State {
    pub line: usize,
    pub kind: Kind,
    pub length: usize,
    pub lent: [usize; 6],
    pub out: usize,
}

// What a line sets or asks: the body, columns, numbers, a value that is written, bodies that are read, or nothing.
#[derive(Clone, Copy, PartialEq, Eq)]
pub enum Command {
    Body,
    Columns,
    Numbers,
    Written,
    Read,
    Nothing,
}

impl From<u8> for Command {
    fn from(letter: u8) -> Command {
        match letter {
            b'a' | b'b' | b'f' => Command::Body,
            b't' | b'1'..=b'5' => Command::Columns,
            b'k' | b'l' | b'o' => Command::Numbers,
            b'w' | b'x' | b'y' => Command::Written,
            b'r' | b'n' | b'c' | b'd' | b's' => Command::Read,
            _ => Command::Nothing,
        }
    }
}

pub fn is_hex(letter: u8) -> bool {
    letter == b'a' || letter == b'b'
}

// A number that is being read, and how many were read before.
#[derive(Clone, Copy, PartialEq, Eq)]
struct Digits {
    value: usize,
    digits: usize,
    count: usize,
}

fn digit(b: u8) -> Option<usize> {
    match b {
        b'0'..=b'9' => Some((b - 48) as usize),
        b'A'..=b'F' => Some((b - 55) as usize),
        _ => None,
    }
}

fn ended(d: Digits, out: &mut [usize]) -> Digits {
    let at = d.count;
    if 0 < d.digits {
        if at < out.len() {
            out[at] = d.value;
            return Digits {
                value: 0,
                digits: 0,
                count: at + 1,
            };
        }
    }
    Digits {
        value: 0,
        digits: 0,
        count: at,
    }
}

fn next(d: Digits, b: u8, hex: bool, out: &mut [usize]) -> Digits {
    let Some(x) = digit(b) else {
        return ended(d, out);
    };
    if !hex {
        return Digits {
            value: (d.value % 1000000) * 10 + x % 16,
            digits: 1,
            count: d.count,
        };
    }
    let two = Digits {
        value: (d.value % 256) * 16 + x % 16,
        digits: d.digits % 2 + 1,
        count: d.count,
    };
    if two.digits == 2 {
        ended(two, out)
    } else {
        two
    }
}

// The numbers of a line behind its letter, and how many they are.
pub fn numbers(line: &[u8], hex: bool, out: &mut [usize]) -> usize {
    let mut d = Digits {
        value: 0,
        digits: 0,
        count: 0,
    };
    for b in line.iter().skip(1) {
        d = next(d, *b, hex, out);
    }
    d = ended(d, out);
    d.count
}

// ---- what is kept from line to line

pub fn with_numbers(s: State, letter: u8, v: &[usize; 4096]) -> State {
    let mut t = s;
    if letter == b'k' {
        t.kind = Kind::from(v[0]);
        return t;
    }
    if letter == b'o' {
        t.out = v[0];
        return t;
    }
    t.lent = [v[0], v[1], v[2], v[3], v[4], v[5]];
    t
}

// The body is these bytes (b), or what it was and these (a), or what it was and a run of one byte (f).
pub fn with_bytes(s: State, letter: u8, n: usize, v: &[usize; 4096], body: &mut Bytes) -> State {
    let mut t = s;
    if letter == b'b' {
        t.length = tables::put_bytes(body, 0, n, v);
        return t;
    }
    if letter == b'a' {
        t.length = tables::put_bytes(body, s.length, n, v);
        return t;
    }
    t.length = tables::put_run(body, s.length, v[0], v[1]);
    t
}

// The table that a line sets; 0 is the top record.
fn table(letter: u8) -> usize {
    match letter {
        b'1'..=b'5' => (letter - 48) as usize,
        _ => 0,
    }
}

// The columns of the top record or a table are these, and so many.
pub fn with_columns(
    s: State,
    letter: u8,
    n: usize,
    v: &[usize; 4096],
    columns: &mut Columns,
) -> State {
    let mut t = s;
    let mut lent = s.lent;
    let i = table(letter);
    if i < 6 {
        lent[i] = tables::put_columns(columns, i, n, v);
    }
    t.lent = lent;
    t
}
