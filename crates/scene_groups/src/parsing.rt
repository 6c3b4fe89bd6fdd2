// Reading groups: one pass measures, one takes what was measured and tests nothing. A body and a position stay two arguments, as in `wire::reads`.
ghost use Rattle.std.specs.Prelude.{ℕ, List, ◌≡◌, true, ◌+◌, ◌*◌, ◌≤◌, length, eqb};
ghost use mathlib.Core.List.{[], ◌++◌};
ghost use Rattle.wire.specs.Bits.{part};
ghost use Rattle.wire.specs.Act.{pick};
ghost use Rattle.wire.specs.Prog.{done, run};
ghost use Rattle.wire.specs.Reads.{is_done};
ghost use Rattle.wire.specs.Layout.{flat};
ghost use Rattle.wire.specs.Straight.{ones, PartTaken, blanks};
ghost use Rattle.scene_groups.specs.Layout.{group, position, gain, language};
ghost use Rattle.scene_groups.specs.Rows.{group_row, position_row, gain_row, language_row, position_from, gain_from, language_from, head_of, PartPut};

use super::rows::{
    ContentLanguage, GROUP_COLUMNS, GainInteractivity, PositionInteractivity, SceneGroup,
};
use wire::bits::{part, wide};
use wire::ids::GroupId;
use wire::list::{Measure, Store};
use wire::reads::{Short, bytes_end, head};
use wire::rows::put_row;

// The reads of one byte in the position and the gain of a group whose flags these are.
fn singles(flags: u16) -> usize
    ensures { (ones result ≡ pick (eqb (part 2 1 flags) 1) (ones 5) [] ++ pick (eqb (part 1 1 flags) 1) (ones 2) []) × (result ≤ 7) }
{
    (part(flags, 2, 1) * 5 + part(flags, 1, 1) * 2) as usize
}

// A row of table 1, as a list of them is measured, stored and tallied.
pub struct Group;

// ---- measured

// The three bytes, then the single bytes of the parts that their flags steer, then the language as one read.
impl Measure for Group {
    ghost Read = { List ℕ };

    ghost reads = { λ _. flat 27 group };

    fn end(&self, body: &[u8], at: usize) -> Result<usize, Short> {
        let n = head(body, at, 3)?;
        let flags = wide(body[at + 1]);
        let m = head(body, n, singles(flags))?;
        if part(flags, 0, 1) == 1 {
            bytes_end(body, m, 3)
        } else {
            Ok(m)
        }
    }
}

// ---- taken, once measured

// A group, and the next position.
#[derive(Clone, Copy, PartialEq, Eq)]
pub struct Placed {
    pub group: SceneGroup,
    pub next: usize,
}

// The bytes of a part of n bytes, which is there if its flag is 1.
pub fn size(flag: u16, n: usize) -> usize
    ensures { result ≡ pick (eqb flag 1) n 0 }
{
    if flag == 1 { n } else { 0 }
}

// The position that begins here and is there.
fn position_from(body: &[u8], at: usize) -> PositionInteractivity
    requires { at + 5 ≤ length body.now }
    ensures { result ≡ position_from body.now at }
{
    let min_az_offset = wide(body[at]);
    let max_az_offset = wide(body[at + 1]);
    let min_el_offset = wide(body[at + 2]);
    let max_el_offset = wide(body[at + 3]);
    let dist = wide(body[at + 4]);
    PositionInteractivity {
        present: 1,
        reserved_min_az: part(min_az_offset, 7, 1),
        min_az_offset: part(min_az_offset, 0, 7),
        reserved_max_az: part(max_az_offset, 7, 1),
        max_az_offset: part(max_az_offset, 0, 7),
        reserved_min_el: part(min_el_offset, 5, 3),
        min_el_offset: part(min_el_offset, 0, 5),
        reserved_max_el: part(max_el_offset, 5, 3),
        max_el_offset: part(max_el_offset, 0, 5),
        min_dist_offset: part(dist, 4, 4),
        max_dist_offset: part(dist, 0, 4),
    }
}

// The position that begins here, if its flag is 1.
fn position_at(body: &[u8], at: usize, present: u16) -> PositionInteractivity
    requires { (at + pick (eqb present 1) 5 0 ≤ length body.now) × (present ≤ 1) }
    ensures { PartTaken 7 11 position present (blanks 10) body.now at (position_row result) }
{
    if present == 1 {
        position_from(body, at)
    } else {
        PositionInteractivity::absent()
    }
}

// The gain that begins here and is there.
fn gain_from(body: &[u8], at: usize) -> GainInteractivity
    requires { at + 2 ≤ length body.now }
    ensures { result ≡ gain_from body.now at }
{
    let min = wide(body[at]);
    let max = wide(body[at + 1]);
    GainInteractivity {
        present: 1,
        reserved_min: part(min, 6, 2),
        min_gain: part(min, 0, 6),
        reserved_max: part(max, 5, 3),
        max_gain: part(max, 0, 5),
    }
}

// The gain that begins here, if its flag is 1.
fn gain_at(body: &[u8], at: usize, present: u16) -> GainInteractivity
    requires { (at + pick (eqb present 1) 2 0 ≤ length body.now) × (present ≤ 1) }
    ensures { PartTaken 18 5 gain present (blanks 4) body.now at (gain_row result) }
{
    if present == 1 {
        gain_from(body, at)
    } else {
        GainInteractivity::absent()
    }
}

// The language that begins here and is there.
fn language_from(body: &[u8], at: usize) -> ContentLanguage
    requires { at + 3 ≤ length body.now }
    ensures { result ≡ language_from body.now at }
{
    ContentLanguage {
        present: 1,
        first: part(wide(body[at]), 0, 8),
        second: part(wide(body[at + 1]), 0, 8),
        third: part(wide(body[at + 2]), 0, 8),
    }
}

// The language that begins here, if its flag is 1.
fn language_at(body: &[u8], at: usize, present: u16) -> ContentLanguage
    requires { (at + pick (eqb present 1) 3 0 ≤ length body.now) × (present ≤ 1) }
    ensures { PartTaken 23 4 language present (blanks 3) body.now at (language_row result) }
{
    if present == 1 {
        language_from(body, at)
    } else {
        ContentLanguage::absent()
    }
}

// A group that was measured: nothing is left to test.
pub fn group_at(body: &[u8], at: usize) -> Placed
    requires { (at ≤ length body.now) × (is_done (run (flat 27 group) body.now at) ≡ true) }
    ensures { done (group_row result.group) result.next ≡ run (flat 27 group) body.now at }
{
    let id = wide(body[at]);
    let flags = wide(body[at + 1]);
    let content = wide(body[at + 2]);
    let p = part(flags, 2, 1);
    let g = part(flags, 1, 1);
    let l = part(flags, 0, 1);
    let at_gain = at + 3 + size(p, 5);
    let at_language = at_gain + size(g, 2);
    let group = SceneGroup {
        reserved_id: part(id, 7, 1),
        group_id: GroupId(part(id, 0, 7)),
        reserved_flags: part(flags, 5, 3),
        allow_on_off: part(flags, 4, 1),
        default_on_off: part(flags, 3, 1),
        reserved_kind: part(content, 4, 4),
        content_kind: part(content, 0, 4),
        position: position_at(body, at + 3, p),
        gain: gain_at(body, at_gain, g),
        content_language: language_at(body, at_language, l),
    };
    Placed {
        group,
        next: at_language + size(l, 3),
    }
}

// ---- stored part by part, so that a row is built in its table and a part that is not there costs its columns alone

// Stores the position that begins here, if its flag is 1, and answers the next position.
fn fill_position(body: &[u8], at: usize, present: u16, groups: &mut [u16], to: usize) -> usize
    requires { (at + pick (eqb present 1) 5 0 ≤ length body.now) × (present ≤ 1) × (to + 11 ≤ length groups.old) }
    ensures { PartPut 7 11 position present (blanks 10) 5 body.now at groups.old to result groups.new }
{
    if present == 1 {
        let p = position_from(body, at);
        put_row(
            groups,
            to,
            &[
                p.present,
                p.reserved_min_az,
                p.min_az_offset,
                p.reserved_max_az,
                p.max_az_offset,
                p.reserved_min_el,
                p.min_el_offset,
                p.reserved_max_el,
                p.max_el_offset,
                p.min_dist_offset,
                p.max_dist_offset,
            ],
        );
        at + 5
    } else {
        put_row(groups, to, &[0, 0, 0, 0, 0, 0, 0, 0, 0, 0, 0]);
        at
    }
}

// Stores the gain that begins here, if its flag is 1, and answers the next position.
fn fill_gain(body: &[u8], at: usize, present: u16, groups: &mut [u16], to: usize) -> usize
    requires { (at + pick (eqb present 1) 2 0 ≤ length body.now) × (present ≤ 1) × (to + 5 ≤ length groups.old) }
    ensures { PartPut 18 5 gain present (blanks 4) 2 body.now at groups.old to result groups.new }
{
    if present == 1 {
        let g = gain_from(body, at);
        put_row(
            groups,
            to,
            &[
                g.present,
                g.reserved_min,
                g.min_gain,
                g.reserved_max,
                g.max_gain,
            ],
        );
        at + 2
    } else {
        put_row(groups, to, &[0, 0, 0, 0, 0]);
        at
    }
}

// Stores the language that begins here, if its flag is 1, and answers the next position.
fn fill_language(body: &[u8], at: usize, present: u16, groups: &mut [u16], to: usize) -> usize
    requires { (at + pick (eqb present 1) 3 0 ≤ length body.now) × (present ≤ 1) × (to + 4 ≤ length groups.old) }
    ensures { PartPut 23 4 language present (blanks 3) 3 body.now at groups.old to result groups.new }
{
    if present == 1 {
        let l = language_from(body, at);
        put_row(groups, to, &[l.present, l.first, l.second, l.third]);
        at + 3
    } else {
        put_row(groups, to, &[0, 0, 0, 0]);
        at
    }
}

// The seven columns of the three bytes that are always there.
fn head_row(id: u16, flags: u16, content: u16) -> [u16; 7]
    ensures { result ≡ head_of id flags content }
{
    [
        part(id, 7, 1),
        part(id, 0, 7),
        part(flags, 5, 3),
        part(flags, 4, 1),
        part(flags, 3, 1),
        part(content, 4, 4),
        part(content, 0, 4),
    ]
}

impl Store for Group {
    ghost Read = { List ℕ };

    ghost reads = { λ _. flat 27 group };

    ghost may = { λ _ _. Unit {0} };

    ghost COLUMNS = { 27 };

    ghost columns = { λ _ r. r };

    const COLUMNS: usize = GROUP_COLUMNS;

    fn store(&self, body: &[u8], at: usize, table: &mut [u16], to: usize) -> usize {
        let id = wide(body[at]);
        let flags = wide(body[at + 1]);
        let content = wide(body[at + 2]);
        let p = part(flags, 2, 1);
        let g = part(flags, 1, 1);
        let l = part(flags, 0, 1);
        put_row(table, to, &head_row(id, flags, content));
        let at_gain = fill_position(body, at + 3, p, table, to + 7);
        let at_language = fill_gain(body, at_gain, g, table, to + 18);
        fill_language(body, at_language, l, table, to + 23)
    }
}
