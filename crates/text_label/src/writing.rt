// Writing the text label body in two passes, each in the Rust's order: the check pass names the first fault or the length, the fill pass stores the bytes.
ghost use Rattle.std.specs.Prelude.{◌≡◌, [], ◌∷◌, ◌*◌, ◌<◌, ◌≤◌, ◌^◌, length};
ghost use Rattle.wire.specs.Act.{rows};
ghost use Rattle.wire.specs.Pen.{Checked, Ready, Filled, At};
ghost use Rattle.wire.specs.Spell.{Spelt};
ghost use Rattle.frame.specs.Entry.{all_acts};
ghost use Rattle.text_label.specs.Write.{all_within, letter_fields, language_acts, row_acts, head_fields, text_label_acts};
ghost use Rattle.text_label.specs.Kind.{kind};

use super::rows::{
    DescriptionLanguage, ENTRY_COLUMNS, LANGUAGE_COLUMNS, MpegH3dAudioTextLabel, TextLabelLanguage,
};
use labels::writing::{check_list, fill_list};
use wire::bits::wide;
use wire::pen;
use wire::pen::{Fault, Pen, Stopped};
use wire::rows::{has_rows, in_store, in_table};
use wire::spell::{check_all, fill_all, one, two};

// ---- the bytes

fn head_bytes(m: MpegH3dAudioTextLabel) -> [u32; 2]
    ensures { Spelt (head_fields m) result }
{
    [
        one(wide(m.scene_info_id)),
        two(wide(m.reserved), 4, m.languages, 4),
    ]
}

fn letter_bytes(l: DescriptionLanguage) -> [u32; 3]
    ensures { Spelt (letter_fields l) result }
{
    [one(l.0), one(l.1), one(l.2)]
}

// ---- the check pass

// Whether the entries of its three lists stand in the table.
fn all_within(l: TextLabelLanguage, entries: &[u16]) -> bool
    ensures { result ≡ all_within l entries.now }
{
    let groups = in_table(l.groups.entries, entries, ENTRY_COLUMNS);
    let switch_groups = in_table(l.switch_groups.entries, entries, ENTRY_COLUMNS);
    let presets = in_table(l.presets.entries, entries, ENTRY_COLUMNS);
    groups & (switch_groups & presets)
}

// The ranges, then the fields and lists. A language makes at most 48,579 bytes: 3, and 1 and 257 for each label of 127 groups, 31 switch groups and 31 presets.
fn check_language(n: usize, l: TextLabelLanguage, entries: &[u16], store: &[u8]) -> Pen
    requires { n < 2 ^ 24 }
    ensures { Checked (language_acts entries.now store.now l) 48579 (At n) result }
{
    if all_within(l, entries) {
        let p1 = check_all(Ok(n), true, &letter_bytes(l.language));
        let p2 = check_list(p1, l.groups, 7, entries, store);
        let p3 = check_list(p2, l.switch_groups, 5, entries, store);
        check_list(p3, l.presets, 5, entries, store)
    } else {
        Err(Stopped(Fault::Range, n))
    }
}

// The rows of table 6 from the first; a fault ends it. There is no quick test of a language, so each is checked at once.
fn check_languages(n: usize, languages: &[u16], count: usize, entries: &[u16], store: &[u8]) -> Pen
    requires { (count * 12 ≤ length languages.now) × (count < 16) × (n < 2 ^ 16) }
    ensures { Checked (rows (row_acts languages.now entries.now store.now) 0 count) (48579 * count) (At n) result }
{
    let mut at = n;
    for i in 0..count {
        let l = TextLabelLanguage::of_columns(languages, i * LANGUAGE_COLUMNS);
        at = check_language(at, l, entries, store)?;
    }
    Ok(at)
}

// All but the trailing run; the range of the languages first, at its start.
fn check_fields(m: MpegH3dAudioTextLabel, languages: &[u16], entries: &[u16], store: &[u8]) -> Pen
    ensures { Checked (text_label_acts m languages.now entries.now store.now) 728687 (At 0) result }
{
    let count = m.languages;
    if has_rows(languages, LANGUAGE_COLUMNS, count as usize) {
        let n = check_all(Ok(0), true, &head_bytes(m))?;
        check_languages(n, languages, count as usize, entries, store)
    } else {
        Err(Stopped(Fault::Range, 0))
    }
}

// The whole: its first fault, or its length, which is at most 794,222: 2, 15 languages, and the longest trailing run.
pub fn check(m: MpegH3dAudioTextLabel, languages: &[u16], entries: &[u16], store: &[u8]) -> Pen
    ensures { Checked (all_acts kind m (languages.now ∷ entries.now ∷ []) store.now) 794222 (At 0) result }
{
    let trailing = m.trailing;
    if in_store(trailing, store) {
        let count = trailing.length;
        pen::run(check_fields(m, languages, entries, store), count as usize)
    } else {
        Err(Stopped(Fault::Range, 0))
    }
}

// ---- the fill pass

fn fill_language(
    l: TextLabelLanguage,
    entries: &[u16],
    store: &[u8],
    out: &mut [u8],
    n: usize,
) -> usize
    requires { Ready (language_acts entries.now store.now l) n out.old }
    ensures { Filled (language_acts entries.now store.now l) n out.old result out.new }
{
    let n1 = fill_all(out, n, true, &letter_bytes(l.language));
    let n2 = fill_list(l.groups, 7, entries, store, out, n1);
    let n3 = fill_list(l.switch_groups, 5, entries, store, out, n2);
    fill_list(l.presets, 5, entries, store, out, n3)
}

// The rows of table 6, from the first; a loop of its own, as in checking.
fn fill_languages(
    languages: &[u16],
    count: usize,
    entries: &[u16],
    store: &[u8],
    out: &mut [u8],
    n: usize,
) -> usize
    requires { (count * 12 ≤ length languages.now) × (count < 2 ^ 16) × Ready (rows (row_acts languages.now entries.now store.now) 0 count) n out.old }
    ensures { Filled (rows (row_acts languages.now entries.now store.now) 0 count) n out.old result out.new }
{
    let mut at = n;
    for i in 0..count {
        let l = TextLabelLanguage::of_columns(languages, i * LANGUAGE_COLUMNS);
        at = fill_language(l, entries, store, out, at);
    }
    at
}

// All but the trailing run.
fn fill_fields(
    m: MpegH3dAudioTextLabel,
    languages: &[u16],
    entries: &[u16],
    store: &[u8],
    out: &mut [u8],
) -> usize
    requires { Ready (text_label_acts m languages.now entries.now store.now) 0 out.old }
    ensures { Filled (text_label_acts m languages.now entries.now store.now) 0 out.old result out.new }
{
    let count = m.languages;
    let n = fill_all(out, 0, true, &head_bytes(m));
    fill_languages(languages, count as usize, entries, store, out, n)
}

pub fn fill(
    m: MpegH3dAudioTextLabel,
    languages: &[u16],
    entries: &[u16],
    store: &[u8],
    out: &mut [u8],
) -> usize
    requires { Ready (all_acts kind m (languages.now ∷ entries.now ∷ []) store.now) 0 out.old }
    ensures { Filled (all_acts kind m (languages.now ∷ entries.now ∷ []) store.now) 0 out.old result out.new }
{
    let from = m.trailing.offset;
    let count = m.trailing.length;
    let n = fill_fields(m, languages, entries, store, out);
    pen::copy(out, n, store, from as usize, count as usize)
}
