// Writing groups: their bytes as numbers, the check pass with a quick test of a plain row, and the fill pass. A table and the first column of a row stay two arguments, as in `wire::rows`.
ghost use Rattle.std.specs.Prelude.{◌≡◌, map, ◌+◌, ◌*◌, ◌<◌, ◌≤◌, ◌^◌, length};
ghost use Rattle.wire.specs.Layout.{field_of};
ghost use Rattle.wire.specs.Pen.{Checked, Quick, Ready, Filled};
ghost use Rattle.wire.specs.Spell.{Spells, Spelt, fit_all};
ghost use Rattle.wire.specs.Pen.{At};
ghost use Rattle.scene_groups.specs.Rows.{group_cols, group_of, position_of, gain_of, language_of, flag_cells};
ghost use Rattle.scene_groups.specs.Write.{head_fields, position_fields, gain_fields, language_fields, group_flags, position_fits, gain_fits, language_fits, id_fits, kind_fits, plain_fits, no_parts, position_part, gain_part, language_part, group_acts, row_acts};

use super::parsing::size;
use super::rows::{
    ContentLanguage, GROUP_COLUMNS, GainInteractivity, PositionInteractivity, SceneGroup, column,
};
use wire::bits::{fits, four_fit, is_flag, two_fit};
use wire::pen;
use wire::pen::{Fault, Pen};
use wire::spell::{Joined, check_all, fill_all, fits_all, one, two};
use wire::written::Rows;

// ---- the bytes

fn flags_byte(groups: &[u16], b: usize) -> u32
    requires { b + 27 ≤ length groups.now }
    ensures { Spells (map (field_of (group_cols (group_of groups.now b))) flag_cells) result }
{
    let reserved = Joined::none().field(column(groups, b, 2), 3);
    let on_off = reserved
        .field(column(groups, b, 3), 1)
        .field(column(groups, b, 4), 1);
    on_off
        .field(column(groups, b, 7), 1)
        .field(column(groups, b, 18), 1)
        .field(column(groups, b, 23), 1)
        .spelt()
}

// Of the row whose first column is `b`: no column of a part but its flag is loaded.
fn head_bytes(groups: &[u16], b: usize) -> [u32; 3]
    requires { b + 27 ≤ length groups.now }
    ensures { Spelt (head_fields (group_of groups.now b)) result }
{
    [
        two(groups[b], 1, column(groups, b, 1), 7),
        flags_byte(groups, b),
        two(column(groups, b, 5), 4, column(groups, b, 6), 4),
    ]
}

fn position_bytes(p: PositionInteractivity) -> [u32; 5]
    ensures { Spelt (position_fields p) result }
{
    [
        two(p.reserved_min_az, 1, p.min_az_offset, 7),
        two(p.reserved_max_az, 1, p.max_az_offset, 7),
        two(p.reserved_min_el, 3, p.min_el_offset, 5),
        two(p.reserved_max_el, 3, p.max_el_offset, 5),
        two(p.min_dist_offset, 4, p.max_dist_offset, 4),
    ]
}

fn gain_bytes(g: GainInteractivity) -> [u32; 2]
    ensures { Spelt (gain_fields g) result }
{
    [
        two(g.reserved_min, 2, g.min_gain, 6),
        two(g.reserved_max, 3, g.max_gain, 5),
    ]
}

fn language_bytes(l: ContentLanguage) -> [u32; 3]
    ensures { Spelt (language_fields l) result }
{
    [one(l.first), one(l.second), one(l.third)]
}

// ---- the check pass

fn flags_hold(g: SceneGroup) -> bool
    ensures { result ≡ group_flags g }
{
    is_flag(g.allow_on_off)
        & (is_flag(g.default_on_off)
            & (is_flag(g.position.present)
                & (is_flag(g.gain.present) & is_flag(g.content_language.present))))
}

// Flags at the start of the row, then each byte at its place.
fn check_group(n: usize, groups: &[u16], b: usize) -> Pen
    requires { (n < 2 ^ 31) × (b + 27 ≤ length groups.now) }
    ensures { Checked (group_acts (group_of groups.now b)) 13 (At n) result }
{
    let g = SceneGroup::of_columns(groups, b);
    let p0 = pen::demand(Ok(n), Fault::Field, flags_hold(g));
    let p1 = check_all(p0, true, &head_bytes(groups, b));
    let p2 = check_all(p1, g.position.present == 1, &position_bytes(g.position));
    let p3 = check_all(p2, g.gain.present == 1, &gain_bytes(g.gain));
    check_all(
        p3,
        g.content_language.present == 1,
        &language_bytes(g.content_language),
    )
}

// Whether the fields of a part fit: its columns stand side by side.
fn position_columns_fit(p: PositionInteractivity) -> bool
    ensures { result ≡ fit_all (position_fields p) }
{
    let azimuths = four_fit(
        p.reserved_min_az,
        1,
        p.min_az_offset,
        7,
        p.reserved_max_az,
        1,
        p.max_az_offset,
        7,
    );
    let elevations = four_fit(
        p.reserved_min_el,
        3,
        p.min_el_offset,
        5,
        p.reserved_max_el,
        3,
        p.max_el_offset,
        5,
    );
    let distances = two_fit(p.min_dist_offset, 4, p.max_dist_offset, 4);
    azimuths & (elevations & distances)
}

fn gain_columns_fit(g: GainInteractivity) -> bool
    ensures { result ≡ fit_all (gain_fields g) }
{
    four_fit(
        g.reserved_min,
        2,
        g.min_gain,
        6,
        g.reserved_max,
        3,
        g.max_gain,
        5,
    )
}

// Whether the fields of a part fit, if it is there: its columns are loaded behind its flag.
fn position_fits(groups: &[u16], b: usize) -> bool
    requires { b + 27 ≤ length groups.now }
    ensures { result ≡ position_fits (position_of groups.now b) }
{
    if column(groups, b, 7) == 1 {
        position_columns_fit(PositionInteractivity::of_columns(groups, b))
    } else {
        true
    }
}

fn gain_fits(groups: &[u16], b: usize) -> bool
    requires { b + 27 ≤ length groups.now }
    ensures { result ≡ gain_fits (gain_of groups.now b) }
{
    if column(groups, b, 18) == 1 {
        gain_columns_fit(GainInteractivity::of_columns(groups, b))
    } else {
        true
    }
}

fn language_fits(groups: &[u16], b: usize) -> bool
    requires { b + 27 ≤ length groups.now }
    ensures { result ≡ language_fits (language_of groups.now b) }
{
    if column(groups, b, 23) == 1 {
        fits_all(&language_bytes(ContentLanguage::of_columns(groups, b)))
    } else {
        true
    }
}

// Whether nothing is wrong with a row: a flag is a field of one bit, so the bytes tell.
fn plain(groups: &[u16], b: usize) -> bool
    requires { b + 27 ≤ length groups.now }
    ensures { result ≡ plain_fits (group_cols (group_of groups.now b)) }
{
    let position = position_fits(groups, b);
    let gain = gain_fits(groups, b);
    let language = language_fits(groups, b);
    head_fits(groups, b) & (position & (gain & language))
}

// The bytes of a row that has parts, or 0 if it has a fault.
fn full_bytes(groups: &[u16], b: usize) -> usize
    requires { b + 27 ≤ length groups.now }
    ensures { Quick (group_acts (group_of groups.now b)) 13 result }
{
    if plain(groups, b) {
        3 + (size(column(groups, b, 7), 5)
            + (size(column(groups, b, 18), 2) + size(column(groups, b, 23), 3)))
    } else {
        0
    }
}

// Whether a row has no part.
fn bare(groups: &[u16], b: usize) -> bool
    requires { b + 27 ≤ length groups.now }
    ensures { result ≡ no_parts (group_cols (group_of groups.now b)) }
{
    (column(groups, b, 7) == 0) & ((column(groups, b, 18) == 0) & (column(groups, b, 23) == 0))
}

// Whether the first four columns fit, and the next four.
fn id_fits(groups: &[u16], b: usize) -> bool
    requires { b + 27 ≤ length groups.now }
    ensures { result ≡ id_fits (group_cols (group_of groups.now b)) }
{
    four_fit(
        groups[b],
        1,
        column(groups, b, 1),
        7,
        column(groups, b, 2),
        3,
        column(groups, b, 3),
        1,
    )
}

fn kind_fits(groups: &[u16], b: usize) -> bool
    requires { b + 27 ≤ length groups.now }
    ensures { result ≡ kind_fits (group_cols (group_of groups.now b)) }
{
    four_fit(
        column(groups, b, 4),
        1,
        column(groups, b, 5),
        4,
        column(groups, b, 6),
        4,
        column(groups, b, 7),
        1,
    )
}

// Whether its three bytes fit: the first eight columns stand side by side, then come the flags of the other two parts.
fn head_fits(groups: &[u16], b: usize) -> bool
    requires { b + 27 ≤ length groups.now }
    ensures { result ≡ fit_all (head_fields (group_of groups.now b)) }
{
    let flags = fits(column(groups, b, 18), 1) & fits(column(groups, b, 23), 1);
    if id_fits(groups, b) {
        if kind_fits(groups, b) { flags } else { false }
    } else {
        false
    }
}

// The bytes of a row, or 0 if it has a fault: in almost every row nothing is wrong, and this is seen at once.
// Of a row without parts, only the three bytes are looked at.
fn plain_bytes(groups: &[u16], b: usize) -> usize
    requires { b + 27 ≤ length groups.now }
    ensures { Quick (group_acts (group_of groups.now b)) 13 result }
{
    if bare(groups, b) {
        if head_fits(groups, b) { 3 } else { 0 }
    } else {
        full_bytes(groups, b)
    }
}

// ---- the fill pass

// Each part behind its flag: a store to `out` would keep the compiler from moving a load there.
fn fill_position(groups: &[u16], b: usize, out: &mut [u8], n: usize) -> usize
    requires { (b + 27 ≤ length groups.now) × Ready (position_part (position_of groups.now b)) n out.old }
    ensures { Filled (position_part (position_of groups.now b)) n out.old result out.new }
{
    if column(groups, b, 7) == 1 {
        let bytes = position_bytes(PositionInteractivity::of_columns(groups, b));
        fill_all(out, n, true, &bytes)
    } else {
        n
    }
}

fn fill_gain(groups: &[u16], b: usize, out: &mut [u8], n: usize) -> usize
    requires { (b + 27 ≤ length groups.now) × Ready (gain_part (gain_of groups.now b)) n out.old }
    ensures { Filled (gain_part (gain_of groups.now b)) n out.old result out.new }
{
    if column(groups, b, 18) == 1 {
        let bytes = gain_bytes(GainInteractivity::of_columns(groups, b));
        fill_all(out, n, true, &bytes)
    } else {
        n
    }
}

fn fill_language(groups: &[u16], b: usize, out: &mut [u8], n: usize) -> usize
    requires { (b + 27 ≤ length groups.now) × Ready (language_part (language_of groups.now b)) n out.old }
    ensures { Filled (language_part (language_of groups.now b)) n out.old result out.new }
{
    if column(groups, b, 23) == 1 {
        let bytes = language_bytes(ContentLanguage::of_columns(groups, b));
        fill_all(out, n, true, &bytes)
    } else {
        n
    }
}

fn fill_group(groups: &[u16], b: usize, out: &mut [u8], n: usize) -> usize
    requires { (b + 27 ≤ length groups.now) × Ready (group_acts (group_of groups.now b)) n out.old }
    ensures { Filled (group_acts (group_of groups.now b)) n out.old result out.new }
{
    let n1 = fill_all(out, n, true, &head_bytes(groups, b));
    let n2 = fill_position(groups, b, out, n1);
    let n3 = fill_gain(groups, b, out, n2);
    fill_language(groups, b, out, n3)
}

// ---- the rows of table 1

// The rows that are written.
#[derive(Clone, Copy)]
pub struct Groups<'a> {
    pub groups: &'a [u16],
}

impl Rows for Groups<'_> {
    ghost columns = { 27 };

    ghost table = { λ t. t.groups.now };

    ghost acts = { λ t i. row_acts t.groups.now i };

    ghost most = { 13 };

    ghost may = { λ _. Unit {0} };

    fn columns(&self) -> usize {
        GROUP_COLUMNS
    }

    fn plain(&self, i: usize, b: usize) -> usize {
        plain_bytes(self.groups, b)
    }

    fn check(&self, n: usize, i: usize) -> Pen {
        check_group(n, self.groups, i * GROUP_COLUMNS)
    }

    fn fill(&self, i: usize, b: usize, out: &mut [u8], n: usize) -> usize {
        fill_group(self.groups, b, out, n)
    }
}
