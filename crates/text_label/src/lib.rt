// The text label body (kind 3; H.222.0 2.6.112, Table 2-124): read, measure, tally and write. Its languages are the rows of table 6, their entries those of table 7. Each kind has these four functions, over its own tables.
#![tactic(auto)]

pub mod parsing;
pub mod rows;
mod tallying;
mod writing;

ghost use Rattle.std.specs.Prelude.{[], ◌∷◌};
ghost use Rattle.frame.specs.Numbers.{answer_of, written};
ghost use Rattle.frame.specs.Entry.{Reads, Measures, Tallies, Writes};
ghost use Rattle.text_label.specs.Kind.{kind};
ghost use Rattle.text_label.specs.Contract.{measured};

use frame::{Refusal, Unwritten, and_table};
use rows::{ENTRY_COLUMNS, LANGUAGE_COLUMNS, MpegH3dAudioTextLabel};

// What a body needs: the rows of tables 6 and 7, and k, the bytes before the trailing run.
#[derive(Clone, Copy, PartialEq, Eq)]
pub struct Sizes {
    pub languages: u16,
    pub entries: u16,
    pub k: usize,
}

// What the body needs, or 2, or 1.
pub fn measure(body: &[u8]) -> Result<Sizes, Refusal>
    ensures { Measures kind body.now (measured result) }
{
    if 65535 < body.len() {
        return Err(Refusal::TooLong(body.len()));
    }
    let (entries, k) = parsing::rows(body)?;
    Ok(Sizes {
        languages: parsing::count_at(body),
        entries: entries as u16,
        k,
    })
}

// The record of a body, its trailing run included, its languages in table 6 and their entries in table 7; or 2, or 1, or 3. The tables are touched when all of the body is known to be sound.
pub fn read(
    body: &[u8],
    languages: &mut [u16],
    entries: &mut [u16],
) -> Result<MpegH3dAudioTextLabel, Refusal>
    ensures { Reads kind body.now (languages.old ∷ entries.old ∷ []) (answer_of result) (languages.new ∷ entries.new ∷ []) }
{
    if parsing::is_bare(body) {
        let s = Sizes {
            languages: 0,
            entries: 0,
            k: 2,
        };
        return Ok(parsing::record_at(body, s));
    }
    read_rows(body, languages, entries)
}

// The same of a body that may have languages. A function clears what it keeps where it begins: so a body without languages does not pay for the answer of measuring.
fn read_rows(
    body: &[u8],
    languages: &mut [u16],
    entries: &mut [u16],
) -> Result<MpegH3dAudioTextLabel, Refusal>
    ensures { Reads kind body.now (languages.old ∷ entries.old ∷ []) (answer_of result) (languages.new ∷ entries.new ∷ []) }
{
    let s = measure(body)?;
    let a = and_table(Ok(()), 6, LANGUAGE_COLUMNS, s.languages as usize, languages);
    and_table(a, 7, ENTRY_COLUMNS, s.entries as usize, entries)?;
    parsing::fill(body, s, languages, entries);
    Ok(parsing::record_at(body, s))
}

// The reserved bits at 0, or 2, or 1.
pub fn tally(body: &[u8]) -> Result<usize, Refusal>
    ensures { Tallies kind body.now (answer_of result) }
{
    let s = measure(body)?;
    Ok(tallying::zero_bits(body, s))
}

// Writes the value at the front of the output, its languages taken from table 6, their entries from table 7, labels and trailing run from the store: first the faults, then 10, then 4.
pub fn write(
    m: MpegH3dAudioTextLabel,
    languages: &[u16],
    entries: &[u16],
    store: &[u8],
    out: &mut [u8],
) -> Result<usize, Unwritten>
    ensures { Writes kind m (languages.now ∷ entries.now ∷ []) store.now out.old (written result) out.new }
{
    let n = frame::judge(writing::check(m, languages, entries, store), out.len())?;
    writing::fill(m, languages, entries, store, out);
    Ok(n)
}
