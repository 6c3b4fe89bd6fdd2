// An answer as one number: document 01's number in the low 8 bits, what it returns in the high 56. Number 3 has the table in the next 24 bits and the rows in the high 32.
ghost use Rattle.std.specs.Prelude.{◌≡◌, ◌<◌, min};
ghost use Rattle.frame.specs.Numbers.{refusal, fault_number, answer_of, written};
ghost use Rattle.mpegh_c.specs.Code.{code, table_code, refused_code, answer_code};
ghost use Rattle.mpegh_c.specs.Host.{unroomed};

use frame::{Refusal, Unwritten};
use wire::pen::Fault;

// What is too large for its bits is given as the largest.
fn at_most(value: usize, largest: u64) -> u64
    ensures { result ≡ min value largest }
{
    if (value as u64) < largest {
        value as u64
    } else {
        largest
    }
}

pub fn code(number: u64, value: usize) -> u64
    requires { number < 256 }
    ensures { result ≡ code number value }
{
    number + 256 * at_most(value, 0xFF_FFFF_FFFF_FFFF)
}

// Number 3.
pub fn room_code(table: u16, rows: usize) -> u64
    ensures { result ≡ table_code 3 table rows }
{
    3 + 256 * (table as u64) + 0x1_0000_0000 * at_most(rows, 0xFFFF_FFFF)
}

pub fn refusal_code(x: Refusal) -> u64
    ensures { result ≡ refused_code (refusal x) }
{
    match x {
        Refusal::Short(s) => code(1, s.need),
        Refusal::TooLong(n) => code(2, n),
        Refusal::NoRoom(table, rows) => room_code(table, rows),
    }
}

pub fn tallied_code(t: Result<usize, Refusal>) -> u64
    ensures { result ≡ answer_code (answer_of t) }
{
    match t {
        Ok(n) => code(0, n),
        Err(r) => refusal_code(r),
    }
}

// No room for the top record, unless a body that was measured is refused.
pub fn unread<S: Copy>(measured: Result<S, Refusal>) -> u64
    ensures { result ≡ answer_code (unroomed (answer_of measured)) }
{
    match measured {
        Ok(_) => room_code(0, 1),
        Err(r) => refusal_code(r),
    }
}

fn fault_number(fault: Fault) -> u64
    ensures { (result ≡ fault_number fault) × (result < 256) }
{
    match fault {
        Fault::Field => 5,
        Fault::Range => 6,
        Fault::Empty => 7,
        Fault::Scope => 8,
        Fault::Auxiliary => 9,
    }
}

fn unwritten_code(x: Unwritten) -> u64
    ensures { result ≡ answer_code (written (Err x)) }
{
    match x {
        Unwritten::NoRoom(n) => code(4, n),
        Unwritten::Wrong(fault, place) => code(fault_number(fault), place),
        Unwritten::TooLong(n) => code(10, n),
    }
}

pub fn written_code(w: Result<usize, Unwritten>) -> u64
    ensures { result ≡ answer_code (written w) }
{
    match w {
        Ok(n) => code(0, n),
        Err(x) => unwritten_code(x),
    }
}
