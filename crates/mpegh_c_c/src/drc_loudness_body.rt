// The DRC and loudness body (kind 5) for C: the functions of `mpegh_c`, under the same names. The names are exported and each kind lends other tables, so the five modules stay apart. C has no Option: a flag stands beside what it tells of.
ghost use Rattle.std.specs.Prelude.{[], ◌∷◌};
ghost use Rattle.wire.specs.Prog.{span};
ghost use Rattle.drc_kind.specs.Rows.{top_columns, top_row};
ghost use Rattle.drc_kind.specs.Kind.{kind};
ghost use Rattle.mpegh_c.specs.Host.{HostReads, HostMeasures, HostTallies, HostWrites};

use mpegh_c::drc_loudness_body;

// 0, the record's columns at the front of `top` and the rows in tables 9 to 12; or 2, or 1, or 3.
#[unsafe(no_mangle)]
pub extern "C" fn mpegh_drc_loudness_read(
    body: &[u8],
    top: &mut [u16],
    instructions: &mut [u16],
    additional: &mut [u16],
    loudness: &mut [u16],
    downmixes: &mut [u16],
) -> u64
    ensures { HostReads kind top_columns top_row body.now top.old (instructions.old ∷ additional.old ∷ loudness.old ∷ downmixes.old ∷ []) result top.new (instructions.new ∷ additional.new ∷ loudness.new ∷ downmixes.new ∷ []) }
{
    drc_loudness_body::mpegh_drc_loudness_read(
        body,
        top,
        instructions,
        additional,
        loudness,
        downmixes,
    )
}

// k, and the rows of tables 9 to 12 at the front of `rows`; or 2, or 1, or 3.
#[unsafe(no_mangle)]
pub extern "C" fn mpegh_drc_loudness_measure(body: &[u8], rows: &mut [u16]) -> u64
    ensures { HostMeasures kind body.now rows.old result rows.new }
{
    drc_loudness_body::mpegh_drc_loudness_measure(body, rows)
}

// The reserved bits at 0; or 2, or 1.
#[unsafe(no_mangle)]
pub extern "C" fn mpegh_drc_loudness_tally(body: &[u8]) -> u64
    ensures { HostTallies kind body.now result }
{
    drc_loudness_body::mpegh_drc_loudness_tally(body)
}

// The length, and the body at the front of `out`; or a fault, or 10, or 4.
#[unsafe(no_mangle)]
pub extern "C" fn mpegh_drc_loudness_write(
    reserved: u8,
    info_present: bool,
    reserved_drc: u8,
    reserved_loudness: u8,
    reserved_downmix: u8,
    drc_instructions: u16,
    loudness_infos: u16,
    downmix_definitions: u16,
    trailing_offset: u16,
    trailing_length: u16,
    instructions: &[u16],
    additional: &[u16],
    loudness: &[u16],
    downmixes: &[u16],
    store: &[u8],
    out: &mut [u8],
) -> u64
    ensures { HostWrites kind (record { reserved = reserved; info = record { present = info_present; part = record { reserved_drc = reserved_drc; reserved_loudness = reserved_loudness; reserved_downmix = reserved_downmix; drc_instructions = drc_instructions; loudness_infos = loudness_infos; downmix_definitions = downmix_definitions } }; trailing = span trailing_offset trailing_length }) (instructions.now ∷ additional.now ∷ loudness.now ∷ downmixes.now ∷ []) store.now out.old result out.new }
{
    drc_loudness_body::mpegh_drc_loudness_write(
        reserved,
        info_present,
        reserved_drc,
        reserved_loudness,
        reserved_downmix,
        drc_instructions,
        loudness_infos,
        downmix_definitions,
        trailing_offset,
        trailing_length,
        instructions,
        additional,
        loudness,
        downmixes,
        store,
        out,
    )
}
