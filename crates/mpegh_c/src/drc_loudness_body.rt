// The DRC and loudness body (kind 5) for hosts: numbers and slices in, one number out. The names are exported and each kind lends other tables, so the five modules stay apart. C has no Option: a flag stands beside what it tells of.
ghost use Rattle.std.specs.Prelude.{◌≡◌, [], ◌∷◌};
ghost use Rattle.wire.specs.Prog.{span};
ghost use Rattle.drc_kind.specs.Rows.{top_columns, top_row};
ghost use Rattle.drc_kind.specs.Kind.{kind};
ghost use Rattle.mpegh_c.specs.Host.{HostReads, HostMeasures, HostTallies, HostWrites};

use super::codes;
use drc_loudness::opened_behind;
use drc_loudness::parsing::{head_end, record_at};
use drc_loudness::rows::{DrcLoudnessInfo, Info, MpegH3dAudioDrcLoudness, TOP_COLUMNS};
use frame::Refusal;
use wire::rows::{Payload, put_row};

// 0, the record's columns at the front of `top` and the rows in tables 9 to 12; or 2, or 1, or 3.
pub fn mpegh_drc_loudness_read(
    body: &[u8],
    top: &mut [u16],
    instructions: &mut [u16],
    additional: &mut [u16],
    loudness: &mut [u16],
    downmixes: &mut [u16],
) -> u64
    ensures { HostReads kind top_columns top_row body.now top.old (instructions.old ∷ additional.old ∷ loudness.old ∷ downmixes.old ∷ []) result top.new (instructions.new ∷ additional.new ∷ loudness.new ∷ downmixes.new ∷ []) }
{
    // A body that ends before its lists is refused whatever is lent, and so before anything else.
    let n = match head_end(body) {
        Ok(n) => n,
        Err(x) => return codes::refusal_code(Refusal::Short(x)),
    };
    if top.len() < TOP_COLUMNS {
        return codes::unread(drc_loudness::measure(body));
    }
    match opened_behind(body, n, instructions, additional, loudness, downmixes) {
        Ok(p) => {
            put_row(top, 0, &record_at(body, p).columns());
            0
        }
        Err(x) => codes::refusal_code(x),
    }
}

// k, and the rows of tables 9 to 12 at the front of `rows`; or 2, or 1, or 3.
pub fn mpegh_drc_loudness_measure(body: &[u8], rows: &mut [u16]) -> u64
    ensures { HostMeasures kind body.now rows.old result rows.new }
{
    match drc_loudness::measure(body) {
        Ok(s) => {
            if rows.len() < 4 {
                return codes::room_code(0, 1);
            }
            put_row(
                rows,
                0,
                &[s.instructions, s.additional, s.loudness, s.downmixes],
            );
            codes::code(0, s.k)
        }
        Err(x) => codes::refusal_code(x),
    }
}

// The reserved bits at 0; or 2, or 1.
pub fn mpegh_drc_loudness_tally(body: &[u8]) -> u64
    ensures { HostTallies kind body.now result }
{
    codes::tallied_code(drc_loudness::tally(body))
}

// The length, and the body at the front of `out`; or a fault, or 10, or 4.
pub fn mpegh_drc_loudness_write(
    reserved: u8,
    info_present: bool,
    reserved_drc: u8,
    reserved_loudness: u8,
    reserved_downmix: u8,
    drc_instructions: u16,
    loudness_infos: u16,
    downmix_definitions: u16,
    trailing_offset: u16,
    trailing_length: u16,
    instructions: &[u16],
    additional: &[u16],
    loudness: &[u16],
    downmixes: &[u16],
    store: &[u8],
    out: &mut [u8],
) -> u64
    ensures { HostWrites kind (record { reserved = reserved; info = record { present = info_present; part = record { reserved_drc = reserved_drc; reserved_loudness = reserved_loudness; reserved_downmix = reserved_downmix; drc_instructions = drc_instructions; loudness_infos = loudness_infos; downmix_definitions = downmix_definitions } }; trailing = span trailing_offset trailing_length }) (instructions.now ∷ additional.now ∷ loudness.now ∷ downmixes.now ∷ []) store.now out.old result out.new }
{
    let part = DrcLoudnessInfo {
        reserved_drc,
        reserved_loudness,
        reserved_downmix,
        drc_instructions,
        loudness_infos,
        downmix_definitions,
    };
    let m = MpegH3dAudioDrcLoudness {
        reserved,
        info: Info {
            present: info_present,
            part,
        },
        trailing: Payload {
            offset: trailing_offset,
            length: trailing_length,
        },
    };
    codes::written_code(drc_loudness::write(
        m,
        instructions,
        additional,
        loudness,
        downmixes,
        store,
        out,
    ))
}
