// The multi_stream body (kind 4; H.222.0 2.6.114, Table 2-125): read, measure, tally and write. Its groups are the rows of table 8. Each kind has these four functions, over its own tables.
#![tactic(auto)]

mod parsing;
pub mod rows;
mod writing;

ghost use Rattle.std.specs.Prelude.{◌≡◌, [], ◌∷◌};
ghost use Rattle.frame.specs.Numbers.{answer_of, written};
ghost use Rattle.frame.specs.Entry.{Reads, Measures, Tallies, Writes};
ghost use Rattle.multi_stream.specs.Kind.{kind};
ghost use Rattle.multi_stream.specs.Contract.{measured, zeros_of};

use frame::{Refusal, Unwritten, and_table, write_bare};
use rows::{GROUP_COLUMNS, MpegH3dAudioMultiStream};
use wire::bits::{idle_bits, wide};

// What a body needs: the rows of table 8, and k, the bytes before the trailing run.
#[derive(Clone, Copy, PartialEq, Eq)]
pub struct Sizes {
    pub groups: u16,
    pub k: usize,
}

// What the body needs, or 2, or 1.
pub fn measure(body: &[u8]) -> Result<Sizes, Refusal>
    ensures { Measures kind body.now (measured result) }
{
    if 65535 < body.len() {
        return Err(Refusal::TooLong(body.len()));
    }
    let (groups, k) = parsing::rows(body)?;
    Ok(Sizes {
        groups: groups as u16,
        k,
    })
}

// The record of a body, its trailing run included, and its groups in table 8; or 2, or 1, or 3. The table is touched when all of the body is known to be sound.
pub fn read(body: &[u8], groups: &mut [u16]) -> Result<MpegH3dAudioMultiStream, Refusal>
    ensures { Reads kind body.now (groups.old ∷ []) (answer_of result) (groups.new ∷ []) }
{
    let s = measure(body)?;
    and_table(Ok(()), 8, GROUP_COLUMNS, s.groups as usize, groups)?;
    parsing::fill(body, s, groups);
    Ok(parsing::record_at(body, s))
}

// The reserved bits at 0, or 2, or 1: all of them stand in the record.
pub fn tally(body: &[u8]) -> Result<usize, Refusal>
    ensures { Tallies kind body.now (answer_of result) }
{
    let s = measure(body)?;
    Ok(zero_bits(parsing::record_at(body, s)))
}

fn zero_bits(m: MpegH3dAudioMultiStream) -> usize
    ensures { result ≡ zeros_of m }
{
    let main = m.main;
    if main.present {
        let aux = idle_bits(wide(main.part.reserved_aux), 1);
        let groups = idle_bits(wide(main.part.reserved_groups), 1);
        (aux + groups) as usize
    } else {
        0
    }
}

// Writes the value at the front of the output, its groups taken from table 8 and its trailing run from the store: first the faults, then 10, then 4.
pub fn write(
    m: MpegH3dAudioMultiStream,
    groups: &[u16],
    store: &[u8],
    out: &mut [u8],
) -> Result<usize, Unwritten>
    ensures { Writes kind m (groups.now ∷ []) store.now out.old (written result) out.new }
{
    if !m.main.present {
        return write_bare(&writing::head_bytes(m), m.trailing, store, out);
    }
    let n = frame::judge(writing::check(m, groups, store), out.len())?;
    writing::fill(m, groups, store, out);
    Ok(n)
}
