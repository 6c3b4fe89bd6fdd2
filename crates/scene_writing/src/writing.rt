// Writing the scene body in two passes, each in the Rust's order: the check pass names the first fault or the length, the fill pass stores the bytes.
ghost use Rattle.std.specs.Prelude.{◌≡◌, true, [], ◌∷◌, ◌+◌, ◌-◌, ◌*◌, ◌<◌, ◌≤◌, ◌^◌};
ghost use Rattle.wire.specs.Pen.{reach, Checked, Ready, Filled};
ghost use Rattle.wire.specs.Spell.{Spells, Spelt};
ghost use Rattle.wire.specs.Pen.{At};
ghost use Rattle.frame.specs.Entry.{all_acts};
ghost use Rattle.scene_kind.specs.Kind.{kind};
ghost use Rattle.scene_writing.specs.Write.{flags_byte, head_bytes, count_byte, section_acts, scene_acts, within, all_within};

use presets::rows::PRESET_COLUMNS;
use presets::writing::Presets;
use scene_groups::rows::GROUP_COLUMNS;
use scene_groups::writing::Groups;
use scene_kind::rows::{MpegH3dAudioScene, Section};
use switch_groups::rows::SWITCH_GROUP_COLUMNS;
use switch_groups::writing::Switches;
use wire::bits::{flag, wide};
use wire::pen;
use wire::pen::{Fault, Pen, Stopped};
use wire::rows::{has_rows, in_store};
use wire::spell::{Joined, check_all, fill_all, one, two};
use wire::written::{Rows, check_rows, fill_rows};

// ---- the bytes of the top record

fn flags_byte(m: MpegH3dAudioScene) -> u32
    ensures { Spells (flags_byte m) result }
{
    let a = Joined::none().field(flag(m.groups.present), 1);
    let b = a.field(flag(m.switch_groups.present), 1);
    b.field(flag(m.presets.present), 1)
        .field(wide(m.reserved_flags), 5)
        .spelt()
}

pub fn head_bytes(m: MpegH3dAudioScene) -> [u32; 2]
    ensures { Spelt (head_bytes m) result }
{
    [flags_byte(m), one(wide(m.scene_info_id))]
}

// The reserved bits of a section, and its count of `w` bits.
fn count_byte(reserved: u8, s: Section, w: u32) -> [u32; 1]
    requires { w ≤ 8 }
    ensures { Spelt (count_byte (8 - w) w reserved s ∷ []) result }
{
    [two(wide(reserved), 8 - w, s.count, w)]
}

// Whether the rows of a section stand in its table.
fn rows_within(s: Section, columns: usize, table: &[u16]) -> bool
    requires { (0 < columns) × (columns < 2 ^ 16) }
    ensures { result ≡ within s columns table.now }
{
    if s.present {
        let count = s.count;
        has_rows(table, columns, count as usize)
    } else {
        true
    }
}

fn all_within(m: MpegH3dAudioScene, groups: &[u16], switch_groups: &[u16], presets: &[u16]) -> bool
    ensures { result ≡ all_within m groups.now switch_groups.now presets.now }
{
    let g = rows_within(m.groups, GROUP_COLUMNS, groups);
    let s = rows_within(m.switch_groups, SWITCH_GROUP_COLUMNS, switch_groups);
    g & (s & rows_within(m.presets, PRESET_COLUMNS, presets))
}

// ---- the check pass

// A section that is there: its byte, and its rows.
fn check_section<R: Rows>(p: Pen, s: Section, reserved: u8, w: u32, rows: &R) -> Pen
    requires { (within s R.Rows.columns (R.Rows.table rows.now) ≡ true) × R.Rows.may rows.now × (0 < R.Rows.columns) × (w ≤ 8) × (reach p + (1 + R.Rows.most * (2 ^ w - 1)) < 2 ^ 30) }
    ensures { Checked (section_acts s (count_byte (8 - w) w reserved s) (R.Rows.acts rows.now)) (1 + R.Rows.most * (2 ^ w - 1)) p result }
{
    if s.present {
        let n = check_all(p, true, &count_byte(reserved, s, w))?;
        let count = s.count;
        check_rows(rows, n, 0, count as usize)
    } else {
        p
    }
}

// The top record and its sections; the ranges of all first, at its start.
fn check_fields(
    m: MpegH3dAudioScene,
    groups: &[u16],
    switch_groups: &[u16],
    members: &[u16],
    presets: &[u16],
    conditions: &[u16],
) -> Pen
    ensures { Checked (scene_acts m (groups.now ∷ switch_groups.now ∷ members.now ∷ presets.now ∷ conditions.now ∷ [])) 5810 (At 0) result }
{
    if all_within(m, groups, switch_groups, presets) {
        let p1 = check_all(Ok(0), true, &head_bytes(m));
        let p2 = check_section(p1, m.groups, m.reserved_groups, 7, &Groups { groups });
        let s = Switches {
            switch_groups,
            members,
        };
        let p3 = check_section(p2, m.switch_groups, m.reserved_switch_groups, 5, &s);
        let t = Presets {
            presets,
            conditions,
        };
        check_section(p3, m.presets, m.reserved_presets, 5, &t)
    } else {
        Err(Stopped(Fault::Range, 0))
    }
}

// All of it: the trailing run is a range of the top record, and stands last.
pub fn check(
    m: MpegH3dAudioScene,
    groups: &[u16],
    switch_groups: &[u16],
    members: &[u16],
    presets: &[u16],
    conditions: &[u16],
    store: &[u8],
) -> Pen
    ensures { Checked (all_acts kind m (groups.now ∷ switch_groups.now ∷ members.now ∷ presets.now ∷ conditions.now ∷ []) store.now) 71345 (At 0) result }
{
    let trailing = m.trailing;
    if in_store(trailing, store) {
        let p = check_fields(m, groups, switch_groups, members, presets, conditions);
        pen::payload_run(p, trailing)
    } else {
        Err(Stopped(Fault::Range, 0))
    }
}

// ---- the fill pass

fn fill_section<R: Rows>(
    s: Section,
    reserved: u8,
    w: u32,
    rows: &R,
    out: &mut [u8],
    n: usize,
) -> usize
    requires { (within s R.Rows.columns (R.Rows.table rows.now) ≡ true) × R.Rows.may rows.now × (0 < R.Rows.columns) × (w ≤ 8) × Ready (section_acts s (count_byte (8 - w) w reserved s) (R.Rows.acts rows.now)) n out.old }
    ensures { Filled (section_acts s (count_byte (8 - w) w reserved s) (R.Rows.acts rows.now)) n out.old result out.new }
{
    if s.present {
        let n1 = fill_all(out, n, true, &count_byte(reserved, s, w));
        let count = s.count;
        fill_rows(rows, 0, count as usize, out, n1)
    } else {
        n
    }
}

fn fill_fields(
    m: MpegH3dAudioScene,
    groups: &[u16],
    switch_groups: &[u16],
    members: &[u16],
    presets: &[u16],
    conditions: &[u16],
    out: &mut [u8],
) -> usize
    requires { Ready (scene_acts m (groups.now ∷ switch_groups.now ∷ members.now ∷ presets.now ∷ conditions.now ∷ [])) 0 out.old }
    ensures { Filled (scene_acts m (groups.now ∷ switch_groups.now ∷ members.now ∷ presets.now ∷ conditions.now ∷ [])) 0 out.old result out.new }
{
    let n1 = fill_all(out, 0, true, &head_bytes(m));
    let n2 = fill_section(m.groups, m.reserved_groups, 7, &Groups { groups }, out, n1);
    let s = Switches {
        switch_groups,
        members,
    };
    let n3 = fill_section(m.switch_groups, m.reserved_switch_groups, 5, &s, out, n2);
    let t = Presets {
        presets,
        conditions,
    };
    fill_section(m.presets, m.reserved_presets, 5, &t, out, n3)
}

pub fn fill(
    m: MpegH3dAudioScene,
    groups: &[u16],
    switch_groups: &[u16],
    members: &[u16],
    presets: &[u16],
    conditions: &[u16],
    store: &[u8],
    out: &mut [u8],
) -> usize
    requires { Ready (all_acts kind m (groups.now ∷ switch_groups.now ∷ members.now ∷ presets.now ∷ conditions.now ∷ []) store.now) 0 out.old }
    ensures { Filled (all_acts kind m (groups.now ∷ switch_groups.now ∷ members.now ∷ presets.now ∷ conditions.now ∷ []) store.now) 0 out.old result out.new }
{
    let n = fill_fields(m, groups, switch_groups, members, presets, conditions, out);
    pen::copy_payload(out, n, store, m.trailing)
}
