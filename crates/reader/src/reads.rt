// The reads of `Reader` on a slice and a position, which may be any number.
ghost use Rattle.std.specs.Prelude.{◌≡◌, ◌+◌, ◌-◌, ◌^◌, min, drop};
ghost use Rattle.reader.specs.Reading.{SteppedByte, SteppedRun};

use wire::reads::Short;

// A read's answer, and where the reader stands after it.
#[derive(Clone, Copy, PartialEq, Eq)]
pub struct ByteStep {
    pub byte: Result<(u16, usize), Short>,
    pub next: usize,
}

#[derive(Clone, Copy, PartialEq, Eq)]
pub struct RunStep {
    pub run: Result<(usize, usize), Short>,
    pub next: usize,
}

pub fn byte_from(body: &[u8], at: usize) -> ByteStep
    ensures { SteppedByte body.now at result }
{
    let end = capped_sum(at, 1);
    if end <= body.len() {
        ByteStep {
            byte: wire::reads::byte_at(body, at),
            next: end,
        }
    } else {
        ByteStep {
            byte: Err(Short { need: end }),
            next: at,
        }
    }
}

pub fn run_from(body: &[u8], start: usize, count: usize) -> RunStep
    ensures { SteppedRun count body.now start result }
{
    let end = capped_sum(start, count);
    if end <= body.len() {
        RunStep {
            run: Ok((start, end)),
            next: end,
        }
    } else {
        RunStep {
            run: Err(Short { need: end }),
            next: start,
        }
    }
}

// The sum, or the largest number where that is too large.
fn capped_sum(x: usize, y: usize) -> usize
    ensures { result ≡ min (x + y) (2 ^ 64 - 1) }
{
    if y <= 0xFFFF_FFFF_FFFF_FFFF - x {
        x + y
    } else {
        0xFFFF_FFFF_FFFF_FFFF
    }
}

// All from there on, nothing past the end.
pub fn rest_from<'a>(body: &'a [u8], at: usize) -> &'a [u8]
    ensures { result.now ≡ drop at body.now }
{
    if at < body.len() {
        &body[at..]
    } else {
        &body[body.len()..]
    }
}
