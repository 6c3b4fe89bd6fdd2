// Reading the DRC and loudness body: one walk finds its lists and touches nothing, then the record is taken and the tables are filled, and nothing is tested. `opened` answers the places alone (`Opens`, docs/CLAIMS.md), so what takes places takes the body beside them.
ghost use Rattle.std.specs.Prelude.{◌≡◌, [], ◌∷◌, ◌<◌, ◌≤◌, ◌^◌, length};
ghost use Rattle.wire.specs.Reads.{ends_out};
ghost use Rattle.wire.specs.Straight.{ends, spans};
ghost use Rattle.wire.specs.Layout.{blank};
ghost use Rattle.frame.specs.Numbers.{accepted};
ghost use Rattle.frame.specs.Entry.{Measures};
ghost use Rattle.frame.specs.Sight.{Tops, Roomy, Fills};
ghost use Rattle.drc_kind.specs.Layout.{head};
ghost use Rattle.drc_kind.specs.Kind.{kind};
ghost use Rattle.drc_loudness.specs.Contract.{sized};
ghost use Rattle.drc_loudness.specs.Walk.{flag_at, info_at, info_there, rows_at, Found, Walks};

use super::Sizes;
use downmixes::parsing::{Downmix, measure_downmixes};
use drc_kind::rows::{DrcLoudnessInfo, Info, MpegH3dAudioDrcLoudness};
use instructions::parsing::Instruction;
use loudness::parsing::LoudnessEntry;
use wire::bits::{part, wide};
use wire::list::{nest_rows, rows_end, rows_kids, store_rows};
use wire::reads;
use wire::reads::Short;
use wire::rows::trailing_run;

// Where the second and the third list of a body begin, how many additional IDs it has, and k.
#[derive(Clone, Copy, PartialEq, Eq)]
pub struct Places {
    pub loudness: usize,
    pub downmixes: usize,
    pub additional: usize,
    pub k: usize,
}

// The reserved bits and the counts that stand behind the first byte.
fn info_there(body: &[u8]) -> DrcLoudnessInfo
    requires { 4 ≤ length body.now }
    ensures { result ≡ info_there body.now }
{
    let drc = wide(body[1]);
    let loudness = wide(body[2]);
    let downmix = wide(body[3]);
    DrcLoudnessInfo {
        reserved_drc: part(drc, 6, 2) as u8,
        reserved_loudness: part(loudness, 6, 2) as u8,
        reserved_downmix: part(downmix, 5, 3) as u8,
        drc_instructions: part(drc, 0, 6),
        loudness_infos: part(loudness, 0, 6),
        downmix_definitions: part(downmix, 0, 5),
    }
}

// The info of a body whose first bytes are there.
pub fn info_at(body: &[u8]) -> Info
    requires { (1 ≤ length body.now) × (rows_at body.now ≤ length body.now) }
    ensures { result ≡ info_at body.now }
{
    if part(wide(body[0]), 0, 1) == 1 {
        Info::of(info_there(body))
    } else {
        Info::absent()
    }
}

// Where the first list begins.
pub fn rows_at(body: &[u8]) -> usize
    requires { 1 ≤ length body.now }
    ensures { result ≡ rows_at body.now }
{
    if part(wide(body[0]), 0, 1) == 1 { 4 } else { 1 }
}

// The lists that begin behind the counts.
pub fn walk_lists(body: &[u8]) -> Result<Places, Short>
    requires { (4 ≤ length body.now) × (flag_at body.now ≡ 1) }
    ensures { Walks body.now result }
{
    let info = info_there(body);
    let count = info.drc_instructions as usize;
    let (additional, loudness) = rows_kids(&Instruction, body, 4, count)?;
    let count = info.loudness_infos as usize;
    let downmixes = rows_end(&LoudnessEntry, body, loudness, count)?;
    let k = measure_downmixes(body, downmixes, info.downmix_definitions as usize)?;
    Ok(Places {
        loudness,
        downmixes,
        additional,
        k,
    })
}

// Where the bytes before the lists end: the first, and the counts if there is info.
pub fn head_end(body: &[u8]) -> Result<usize, Short>
    ensures { ends_out result ≡ ends (spans head blank body.now 0) body.now 0 }
{
    let n = reads::head(body, 0, 1)?;
    if part(wide(body[0]), 0, 1) == 1 {
        reads::head(body, n, 3)
    } else {
        Ok(n)
    }
}

// The places of a body without lists.
pub fn nowhere(n: usize) -> Places
    ensures { result ≡ record { loudness = n; downmixes = n; additional = 0; k = n } }
{
    Places {
        loudness: n,
        downmixes: n,
        additional: 0,
        k: n,
    }
}

// What stands before the lists, and the lists; without info there is nothing behind the first byte.
pub fn find_lists(body: &[u8]) -> Result<Places, Short>
    ensures { Walks body.now result }
{
    let n = head_end(body)?;
    if n == 4 {
        walk_lists(body)
    } else {
        Ok(nowhere(n))
    }
}

// ---- the body, once its lists were found

// The record.
pub fn record_at(body: &[u8], p: Places) -> MpegH3dAudioDrcLoudness
    requires { Found body.now p × (length body.now < 2 ^ 16) }
    ensures { Tops kind body.now result }
{
    MpegH3dAudioDrcLoudness {
        reserved: part(wide(body[0]), 1, 7) as u8,
        info: info_at(body),
        trailing: trailing_run(p.k, body.len()),
    }
}

// What its tables need.
pub fn sizes_at(body: &[u8], p: Places) -> Sizes
    requires { Found body.now p × (length body.now < 2 ^ 16) }
    ensures { Measures kind body.now (accepted (sized result)) }
{
    let info = info_at(body).part;
    Sizes {
        instructions: info.drc_instructions,
        additional: p.additional as u16,
        loudness: info.loudness_infos,
        downmixes: info.downmix_definitions,
        k: p.k,
    }
}

// Tables 9 to 12.
pub fn fill(
    body: &[u8],
    p: Places,
    instructions: &mut [u16],
    additional: &mut [u16],
    loudness: &mut [u16],
    downmixes: &mut [u16],
)
    requires { Found body.now p × (length body.now < 2 ^ 16) × Roomy kind body.now (instructions.old ∷ additional.old ∷ loudness.old ∷ downmixes.old ∷ []) }
    ensures { Fills kind body.now (instructions.old ∷ additional.old ∷ loudness.old ∷ downmixes.old ∷ []) (instructions.new ∷ additional.new ∷ loudness.new ∷ downmixes.new ∷ []) }
{
    let info = info_at(body).part;
    let at = rows_at(body);
    let count = info.drc_instructions as usize;
    nest_rows(&Instruction, body, at, count, instructions, additional);
    let count = info.loudness_infos as usize;
    let _ = store_rows(&LoudnessEntry, body, p.loudness, count, loudness, 0);
    let count = info.downmix_definitions as usize;
    let _ = store_rows(&Downmix, body, p.downmixes, count, downmixes, 0);
}
