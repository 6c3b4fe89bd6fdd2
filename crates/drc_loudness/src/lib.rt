// The DRC and loudness body (kind 5; H.222.0 2.6.116, Table 2-126): read, measure, tally and write. Its rows are those of tables 9 to 12. Each kind has these four functions, over its own tables, each a parameter as the README shows.
#![tactic(auto)]

pub mod parsing;
pub mod rows;
mod tallying;

ghost use Rattle.std.specs.Prelude.{◌≡◌, [], ◌∷◌, ◌<◌, ◌^◌, length};
ghost use Rattle.frame.specs.Numbers.{answer_of, written};
ghost use Rattle.frame.specs.Entry.{Reads, Measures, Tallies, Writes};
ghost use Rattle.frame.specs.Sight.{Enough, and_tables};
ghost use Rattle.drc_kind.specs.Kind.{kind};
ghost use Rattle.drc_loudness.specs.Contract.{sized, measured};
ghost use Rattle.drc_loudness.specs.Walk.{Begun, Found, Opens};

use downmixes::rows::DOWNMIX_COLUMNS;
use drc_writing::writing;
use frame::{Refusal, Room, Unwritten, and_table, write_bare};
use instructions::rows::{ADDITIONAL_COLUMNS, INSTRUCTION_COLUMNS};
use loudness::rows::ENTRY_COLUMNS;
use parsing::Places;
use rows::MpegH3dAudioDrcLoudness;

// What a body needs: the rows of tables 9 to 12, and k, the bytes before the trailing run.
#[derive(Clone, Copy, PartialEq, Eq)]
pub struct Sizes {
    pub instructions: u16,
    pub additional: u16,
    pub loudness: u16,
    pub downmixes: u16,
    pub k: usize,
}

// What the body needs, or 2, or 1.
pub fn measure(body: &[u8]) -> Result<Sizes, Refusal>
    ensures { Measures kind body.now (measured result) }
{
    if 65535 < body.len() {
        return Err(Refusal::TooLong(body.len()));
    }
    let p = parsing::find_lists(body)?;
    Ok(parsing::sizes_at(body, p))
}

// The record of a body, its rows in tables 9 to 12; or 2, or 1, or 3.
pub fn read(
    body: &[u8],
    instructions: &mut [u16],
    additional: &mut [u16],
    loudness: &mut [u16],
    downmixes: &mut [u16],
) -> Result<MpegH3dAudioDrcLoudness, Refusal>
    ensures { Reads kind body.now (instructions.old ∷ additional.old ∷ loudness.old ∷ downmixes.old ∷ []) (answer_of result) (instructions.new ∷ additional.new ∷ loudness.new ∷ downmixes.new ∷ []) }
{
    let p = opened(body, instructions, additional, loudness, downmixes)?;
    Ok(parsing::record_at(body, p))
}

// All of reading but the record, which the places give: the rows are in the tables, or the body is refused.
pub fn opened(
    body: &[u8],
    instructions: &mut [u16],
    additional: &mut [u16],
    loudness: &mut [u16],
    downmixes: &mut [u16],
) -> Result<Places, Refusal>
    ensures { Opens body.now (instructions.old ∷ additional.old ∷ loudness.old ∷ downmixes.old ∷ []) result (instructions.new ∷ additional.new ∷ loudness.new ∷ downmixes.new ∷ []) }
{
    let n = parsing::head_end(body)?;
    opened_behind(body, n, instructions, additional, loudness, downmixes)
}

// The same of a body whose lists begin at n. The tables are touched when all of it is known to be sound; without info there is nothing to do.
pub fn opened_behind(
    body: &[u8],
    n: usize,
    instructions: &mut [u16],
    additional: &mut [u16],
    loudness: &mut [u16],
    downmixes: &mut [u16],
) -> Result<Places, Refusal>
    requires { Begun body.now n }
    ensures { Opens body.now (instructions.old ∷ additional.old ∷ loudness.old ∷ downmixes.old ∷ []) result (instructions.new ∷ additional.new ∷ loudness.new ∷ downmixes.new ∷ []) }
{
    if 65535 < body.len() {
        return Err(Refusal::TooLong(body.len()));
    }
    if n == 4 {
        let p = parsing::walk_lists(body)?;
        opened_found(body, p, instructions, additional, loudness, downmixes)
    } else {
        Ok(parsing::nowhere(n))
    }
}

// The lowest table that is short, else the rows. A body without rows needs no table, and is done at once.
fn opened_found(
    body: &[u8],
    p: Places,
    instructions: &mut [u16],
    additional: &mut [u16],
    loudness: &mut [u16],
    downmixes: &mut [u16],
) -> Result<Places, Refusal>
    requires { Found body.now p × (length body.now < 2 ^ 16) }
    ensures { Opens body.now (instructions.old ∷ additional.old ∷ loudness.old ∷ downmixes.old ∷ []) result (instructions.new ∷ additional.new ∷ loudness.new ∷ downmixes.new ∷ []) }
{
    let s = parsing::sizes_at(body, p);
    if (s.instructions == 0) & ((s.loudness == 0) & (s.downmixes == 0)) {
        return Ok(p);
    }
    room(s, instructions, additional, loudness, downmixes)?;
    parsing::fill(body, p, instructions, additional, loudness, downmixes);
    Ok(p)
}

// Whether the tables have the rows, from table to table.
fn room(
    s: Sizes,
    instructions: &[u16],
    additional: &[u16],
    loudness: &[u16],
    downmixes: &[u16],
) -> Room
    ensures { result ≡ and_tables Enough (sized s).tables (instructions.now ∷ additional.now ∷ loudness.now ∷ downmixes.now ∷ []) }
{
    let rows = s.instructions as usize;
    let a = and_table(Ok(()), 9, INSTRUCTION_COLUMNS, rows, instructions);
    let rows = s.additional as usize;
    let b = and_table(a, 10, ADDITIONAL_COLUMNS, rows, additional);
    let c = and_table(b, 11, ENTRY_COLUMNS, s.loudness as usize, loudness);
    and_table(c, 12, DOWNMIX_COLUMNS, s.downmixes as usize, downmixes)
}

// The reserved bits at 0, or 2, or 1.
pub fn tally(body: &[u8]) -> Result<usize, Refusal>
    ensures { Tallies kind body.now (answer_of result) }
{
    if 65535 < body.len() {
        return Err(Refusal::TooLong(body.len()));
    }
    let p = parsing::find_lists(body)?;
    Ok(tallying::zero_bits(body, p))
}

// Writes the value at the front of the output, its rows taken from tables 9 to 12, its payloads and its trailing run from the store: first the faults, then 10, then 4.
pub fn write(
    m: MpegH3dAudioDrcLoudness,
    instructions: &[u16],
    additional: &[u16],
    loudness: &[u16],
    downmixes: &[u16],
    store: &[u8],
    out: &mut [u8],
) -> Result<usize, Unwritten>
    ensures { Writes kind m (instructions.now ∷ additional.now ∷ loudness.now ∷ downmixes.now ∷ []) store.now out.old (written result) out.new }
{
    if !m.info.present {
        return write_bare(&writing::head_bytes(m), m.trailing, store, out);
    }
    let p = writing::check(m, instructions, additional, loudness, downmixes, store);
    let n = frame::judge(p, out.len())?;
    writing::fill(m, instructions, additional, loudness, downmixes, store, out);
    Ok(n)
}
