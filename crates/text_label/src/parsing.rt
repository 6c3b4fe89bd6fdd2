// Reading the text label body: the reads in the Rust's order. One pass measures and touches nothing, one takes the record and fills tables 6 and 7 and tests nothing. A body and a position stay two arguments, as in `wire::reads`.
ghost use Rattle.std.specs.Prelude.{◌≡◌, ◌+◌, ◌*◌, ◌<◌, ◌≤◌, length, get_or};
ghost use mathlib.Core.List.{[], ◌∷◌, flatten, flat_map};
ghost use Rattle.wire.specs.Bits.{part};
ghost use Rattle.wire.specs.Prog.{many};
ghost use Rattle.wire.specs.Reads.{ends_out, Summed};
ghost use Rattle.wire.specs.Straight.{ends, ones};
ghost use Rattle.wire.specs.Nest.{Fillable};
ghost use Rattle.frame.specs.Numbers.{accepted};
ghost use Rattle.frame.specs.Entry.{Measures};
ghost use Rattle.frame.specs.Sight.{Tops, Roomy, Fills};
ghost use Rattle.text_label.specs.Rows.{Language};
ghost use Rattle.text_label.specs.Read.{letters_at, language};
ghost use Rattle.text_label.specs.Kind.{entries_of, kind};
ghost use Rattle.text_label.specs.Contract.{sized, is_bare, row_from};

use super::Sizes;
use super::rows::{
    DescriptionLanguage, LANGUAGE_COLUMNS, MpegH3dAudioTextLabel, TextLabelLanguage,
};
use labels::parsing::{fill_list, list_rows, row_after};
use wire::bits::{part, wide};
use wire::list::{Count, Nest, nest_rows, rows_kids};
use wire::reads::{Short, head, run_at};
use wire::rows::{put_row, trailing_run};

// A row of table 6, as a list of them is measured, stored and tallied.
pub struct Language;

// ---- measured

// The entries of a language are the rows of its three lists.
impl Count for Language {
    ghost Read = { Language };

    ghost reads = { λ _. language };

    ghost kids = { λ _ l. length (entries_of l) };

    ghost most = { 381 };

    fn kids(&self, body: &[u8], at: usize) -> Result<(usize, usize), Short> {
        let (_, n1) = run_at(body, at, 3)?;
        let (groups, n2) = list_rows(body, n1, 7)?;
        let (switch_groups, n3) = list_rows(body, n2, 5)?;
        let (presets, next) = list_rows(body, n3, 5)?;
        Ok((groups + (switch_groups + presets), next))
    }
}

// Where the two bytes before the languages end.
pub fn head_end(body: &[u8]) -> Result<usize, Short>
    ensures { ends_out result ≡ ends (ones 2) body.now 0 }
{
    head(body, 0, 2)
}

// The entries of a body, and k.
pub fn rows(body: &[u8]) -> Result<(usize, usize), Short>
    ensures { Summed kind.program (λ t. length (flat_map entries_of t.1.0)) 5715 body.now 0 result }
{
    let n = head_end(body)?;
    let count = part(wide(body[1]), 0, 4) as usize;
    rows_kids(&Language, body, n, count)
}

// Whether a body is at once seen to have no languages: then nothing is walked, and no room is asked.
pub fn is_bare(body: &[u8]) -> bool
    ensures { result ≡ is_bare body.now }
{
    if 65535 < body.len() {
        return false;
    }
    match head_end(body) {
        Ok(_) => count_at(body) == 0,
        Err(_) => false,
    }
}

// ---- filled, once measured

// The three letters of a language.
fn letters_at(body: &[u8], at: usize) -> DescriptionLanguage
    requires { at + 3 ≤ length body.now }
    ensures { result ≡ letters_at body.now at }
{
    DescriptionLanguage(
        part(wide(body[at]), 0, 8),
        part(wide(body[at + 1]), 0, 8),
        part(wide(body[at + 2]), 0, 8),
    )
}

// Its three lists are stored one after the other.
impl Nest for Language {
    ghost Read = { Language };

    ghost reads = { λ _. language };

    ghost may = { λ _ _. Unit {0} };

    ghost COLUMNS = { 12 };

    ghost KID_COLUMNS = { 4 };

    ghost size = { λ _ l. length (entries_of l) };

    ghost columns = { λ _ n l. row_from n l };

    ghost kids = { λ _ l. flatten (entries_of l) };

    const COLUMNS: usize = LANGUAGE_COLUMNS;

    fn store(
        &self,
        body: &[u8],
        at: usize,
        outer: &mut [u16],
        to: usize,
        inner: &mut [u16],
        first: usize,
    ) -> (usize, usize) {
        let language = letters_at(body, at);
        let g = fill_list(body, at + 3, 7, inner, first);
        let groups = g.list;
        let s = fill_list(body, g.next, 5, inner, row_after(groups.entries));
        let switch_groups = s.list;
        let p = fill_list(body, s.next, 5, inner, row_after(switch_groups.entries));
        let presets = p.list;
        let row = TextLabelLanguage {
            language,
            groups,
            switch_groups,
            presets,
        };
        put_row(outer, to, &row.columns());
        (p.next, row_after(presets.entries))
    }
}

// ---- the body, once it was measured

// How many languages there are.
pub fn count_at(body: &[u8]) -> u16
    requires { 2 ≤ length body.now }
    ensures { result ≡ part 0 4 (get_or body.now 1 0) }
{
    part(wide(body[1]), 0, 4)
}

// The record.
pub fn record_at(body: &[u8], s: Sizes) -> MpegH3dAudioTextLabel
    requires { Measures kind body.now (accepted (sized s.languages s.entries s.k)) }
    ensures { Tops kind body.now result }
{
    let b = wide(body[1]);
    MpegH3dAudioTextLabel {
        scene_info_id: part(wide(body[0]), 0, 8) as u8,
        reserved: part(b, 4, 4) as u8,
        languages: s.languages,
        trailing: trailing_run(s.k, body.len()),
    }
}

// Fills tables 6 and 7: the languages begin behind the second byte.
pub fn fill(body: &[u8], s: Sizes, languages: &mut [u16], entries: &mut [u16])
    requires { Measures kind body.now (accepted (sized s.languages s.entries s.k)) × Roomy kind body.now (languages.old ∷ entries.old ∷ []) }
    ensures { Fills kind body.now (languages.old ∷ entries.old ∷ []) (languages.new ∷ entries.new ∷ []) }
{
    let count = s.languages;
    nest_rows(&Language, body, 2, count as usize, languages, entries);
}
