// The text label body (kind 3) for hosts: numbers and slices in, one number out. The names are exported and each kind lends other tables, so the five modules stay apart.
ghost use Rattle.std.specs.Prelude.{◌≡◌, [], ◌∷◌};
ghost use Rattle.wire.specs.Prog.{span};
ghost use Rattle.text_label.specs.Rows.{top_columns, top_row};
ghost use Rattle.text_label.specs.Kind.{kind};
ghost use Rattle.mpegh_c.specs.Code.{answer_code};
ghost use Rattle.mpegh_c.specs.Host.{unread, HostReads, HostMeasures, HostTallies, HostWrites};

use super::codes;
use frame::Refusal;
use text_label::parsing::head_end;
use text_label::rows::{MpegH3dAudioTextLabel, TOP_COLUMNS};
use wire::rows::{Payload, put_row};

// 0, the record's columns at the front of `top`, the languages in table 6 and their entries in table 7; or 2, or 1, or 3.
pub fn mpegh_text_label_read(
    body: &[u8],
    top: &mut [u16],
    languages: &mut [u16],
    entries: &mut [u16],
) -> u64
    ensures { HostReads kind top_columns top_row body.now top.old (languages.old ∷ entries.old ∷ []) result top.new (languages.new ∷ entries.new ∷ []) }
{
    // A body that ends before its languages is refused whatever is lent, and so before anything else.
    if let Err(x) = head_end(body) {
        return codes::refusal_code(Refusal::Short(x));
    }
    if top.len() < TOP_COLUMNS {
        return unread(body);
    }
    match text_label::read(body, languages, entries) {
        Ok(m) => {
            put_row(top, 0, &m.columns());
            0
        }
        Err(x) => codes::refusal_code(x),
    }
}

// No room for the top record, unless the body itself is refused. What measuring answers is kept here: the compiler clears what a function keeps where it begins, and a body that is refused at once need not pay for it.
fn unread(body: &[u8]) -> u64
    ensures { result ≡ answer_code (unread kind body.now) }
{
    codes::unread(text_label::measure(body))
}

// k, and the rows of tables 6 and 7 at the front of `rows`; or 2, or 1, or 3.
pub fn mpegh_text_label_measure(body: &[u8], rows: &mut [u16]) -> u64
    ensures { HostMeasures kind body.now rows.old result rows.new }
{
    match text_label::measure(body) {
        Ok(s) => {
            if rows.len() < 2 {
                return codes::room_code(0, 1);
            }
            put_row(rows, 0, &[s.languages, s.entries]);
            codes::code(0, s.k)
        }
        Err(x) => codes::refusal_code(x),
    }
}

// The reserved bits at 0; or 2, or 1.
pub fn mpegh_text_label_tally(body: &[u8]) -> u64
    ensures { HostTallies kind body.now result }
{
    codes::tallied_code(text_label::tally(body))
}

// The length, and the body at the front of `out`; or a fault, or 10, or 4.
pub fn mpegh_text_label_write(
    scene_info_id: u8,
    reserved: u8,
    languages_count: u16,
    trailing_offset: u16,
    trailing_length: u16,
    languages: &[u16],
    entries: &[u16],
    store: &[u8],
    out: &mut [u8],
) -> u64
    ensures { HostWrites kind (record { scene_info_id = scene_info_id; reserved = reserved; languages = languages_count; trailing = span trailing_offset trailing_length }) (languages.now ∷ entries.now ∷ []) store.now out.old result out.new }
{
    let m = MpegH3dAudioTextLabel {
        scene_info_id,
        reserved,
        languages: languages_count,
        trailing: Payload {
            offset: trailing_offset,
            length: trailing_length,
        },
    };
    codes::written_code(text_label::write(m, languages, entries, store, out))
}
