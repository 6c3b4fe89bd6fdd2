// The text label body (kind 3) for C: the functions of `mpegh_c`, under the same names. The names are exported and each kind lends other tables, so the five modules stay apart.
ghost use Rattle.std.specs.Prelude.{[], ◌∷◌};
ghost use Rattle.wire.specs.Prog.{span};
ghost use Rattle.text_label.specs.Rows.{top_columns, top_row};
ghost use Rattle.text_label.specs.Kind.{kind};
ghost use Rattle.mpegh_c.specs.Host.{HostReads, HostMeasures, HostTallies, HostWrites};

use mpegh_c::text_label_body;

// 0, the record's columns at the front of `top`, the languages in table 6 and their entries in table 7; or 2, or 1, or 3.
#[unsafe(no_mangle)]
pub extern "C" fn mpegh_text_label_read(
    body: &[u8],
    top: &mut [u16],
    languages: &mut [u16],
    entries: &mut [u16],
) -> u64
    ensures { HostReads kind top_columns top_row body.now top.old (languages.old ∷ entries.old ∷ []) result top.new (languages.new ∷ entries.new ∷ []) }
{
    text_label_body::mpegh_text_label_read(body, top, languages, entries)
}

// k, and the rows of tables 6 and 7 at the front of `rows`; or 2, or 1, or 3.
#[unsafe(no_mangle)]
pub extern "C" fn mpegh_text_label_measure(body: &[u8], rows: &mut [u16]) -> u64
    ensures { HostMeasures kind body.now rows.old result rows.new }
{
    text_label_body::mpegh_text_label_measure(body, rows)
}

// The reserved bits at 0; or 2, or 1.
#[unsafe(no_mangle)]
pub extern "C" fn mpegh_text_label_tally(body: &[u8]) -> u64
    ensures { HostTallies kind body.now result }
{
    text_label_body::mpegh_text_label_tally(body)
}

// The length, and the body at the front of `out`; or a fault, or 10, or 4.
#[unsafe(no_mangle)]
pub extern "C" fn mpegh_text_label_write(
    scene_info_id: u8,
    reserved: u8,
    languages_count: u16,
    trailing_offset: u16,
    trailing_length: u16,
    languages: &[u16],
    entries: &[u16],
    store: &[u8],
    out: &mut [u8],
) -> u64
    ensures { HostWrites kind (record { scene_info_id = scene_info_id; reserved = reserved; languages = languages_count; trailing = span trailing_offset trailing_length }) (languages.now ∷ entries.now ∷ []) store.now out.old result out.new }
{
    text_label_body::mpegh_text_label_write(
        scene_info_id,
        reserved,
        languages_count,
        trailing_offset,
        trailing_length,
        languages,
        entries,
        store,
        out,
    )
}
