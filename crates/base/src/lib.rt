// The base body (kind 1; H.222.0 2.6.106, Table 2-121): read, measure, tally and write. Each kind has these four functions, over its own tables; the base body has none.
#![tactic(auto)]

pub mod parsing;
pub mod rows;
mod writing;

ghost use Rattle.std.specs.Prelude.{◌≡◌, []};
ghost use Rattle.frame.specs.Numbers.{answer_of, written};
ghost use Rattle.frame.specs.Entry.{Reads, Measures, Tallies, Writes};
ghost use Rattle.frame.specs.Body.{layouts};
ghost use Rattle.wire.specs.Layout.{of, tally};
ghost use Rattle.base.specs.Rows.{fields};
ghost use Rattle.base.specs.Kind.{pieces, kind};
ghost use Rattle.base.specs.Contract.{measured};

use frame::{Refusal, Unwritten, write_bare};
use rows::MpegH3dAudio;
use wire::bits::{idle_bits, wide};

// What a body needs: the base has no tables, so only k, the bytes before the trailing run.
#[derive(Clone, Copy, PartialEq, Eq)]
pub struct Sizes {
    pub k: usize,
}

// What the body needs, or 2, or 1.
pub fn measure(body: &[u8]) -> Result<Sizes, Refusal>
    ensures { Measures kind body.now (measured result) }
{
    if 65535 < body.len() {
        return Err(Refusal::TooLong(body.len()));
    }
    let k = parsing::end(body)?;
    Ok(Sizes { k })
}

// The record of a body, its trailing run included; or 2, or 1.
pub fn read(body: &[u8]) -> Result<MpegH3dAudio, Refusal>
    ensures { Reads kind body.now [] (answer_of result) [] }
{
    let s = measure(body)?;
    Ok(parsing::record_at(body, s))
}

// The reserved bits at 0, or 2, or 1: all of them stand in the record.
pub fn tally(body: &[u8]) -> Result<usize, Refusal>
    ensures { Tallies kind body.now (answer_of result) }
{
    let s = measure(body)?;
    Ok(zero_bits(parsing::record_at(body, s)))
}

fn zero_bits(m: MpegH3dAudio) -> usize
    ensures { result ≡ tally (layouts pieces) (of (fields m)) }
{
    let flags = idle_bits(wide(m.reserved_flags), 6);
    let layout = idle_bits(wide(m.reserved_layout), 2);
    (flags + layout) as usize
}

// Writes the value at the front of the output, its payloads taken from the store: first the faults, then 10, then 4.
pub fn write(m: MpegH3dAudio, store: &[u8], out: &mut [u8]) -> Result<usize, Unwritten>
    ensures { Writes kind m [] store.now out.old (written result) out.new }
{
    if !m.compatible_sets.present {
        return write_bare(&writing::head_bytes(m), m.trailing, store, out);
    }
    let n = frame::judge(writing::check(m, store), out.len())?;
    writing::fill(m, store, out);
    Ok(n)
}
