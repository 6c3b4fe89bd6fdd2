// Reading the scene body: one walk finds its sections and touches nothing, then the record is taken and the tables are filled, and nothing is tested. `opened` answers the places alone (`Opens`, docs/CLAIMS.md), so what takes places takes the body beside them.
ghost use Rattle.std.specs.Prelude.{Ok, ◌≡◌, true, ◌+◌, ◌*◌, ◌-◌, ◌<◌, ◌≤◌, ◌^◌, length, get_or};
ghost use mathlib.Core.List.{[], ◌∷◌, flat_map};
ghost use Rattle.wire.specs.Bits.{part};
ghost use Rattle.std.proofs.lemmas.List.Edits.{sets};
ghost use Rattle.wire.specs.Lists.{sum};
ghost use Rattle.wire.specs.Prog.{run, many};
ghost use Rattle.wire.specs.Reads.{end_of, is_done, rows_of, ends_out, Summed};
ghost use Rattle.wire.specs.Nest.{Fillable, Nests};
ghost use Rattle.wire.specs.Layout.{flat};
ghost use Rattle.frame.specs.Numbers.{accepted};
ghost use Rattle.frame.specs.Entry.{Measures};
ghost use Rattle.frame.specs.Sight.{Tops, Roomy, Fills};
ghost use Rattle.scene_groups.specs.Layout.{group};
ghost use Rattle.scene_kind.specs.Read.{section};
ghost use Rattle.scene_kind.specs.Rows.{section as sectionIs};
ghost use Rattle.scene_kind.specs.Kind.{kind};
ghost use Rattle.scene.specs.Contract.{sized};
ghost use Rattle.scene.specs.Walk.{rows_at, count_at, reserved_at, Flags, Found, Looks, Walks};

use super::Sizes;
use presets::parsing::Preset;
use scene_groups::parsing::{Group, size};
use scene_kind::rows::{MpegH3dAudioScene, Section};
use switch_groups::parsing::Switch;
use wire::bits::{part, wide};
use wire::list::{Count, Nest, nest_rows, rows_end, rows_kids, store_rows};
use wire::reads::{Short, head};
use wire::rows::trailing_run;

// Where the second and the third section of a body begin, the rows of the tables below theirs, and k.
#[derive(Clone, Copy, PartialEq, Eq)]
pub struct Places {
    pub switch_groups: usize,
    pub presets: usize,
    pub members: usize,
    pub conditions: usize,
    pub k: usize,
}

// How many rows a section has whose byte stands at a position, if its flag is 1.
pub fn count_at(body: &[u8], at: usize, flag: u16, width: u32) -> u16
    requires { (rows_at flag at ≤ length body.now) × (width ≤ 8) }
    ensures { (result ≡ count_at width body.now flag at) × (result < 2 ^ width) }
{
    if flag == 1 {
        part(wide(body[at]), 0, width)
    } else {
        0
    }
}

// Where the section of the groups ends.
fn groups_end(body: &[u8], at: usize, flag: u16) -> Result<usize, Short>
    requires { at ≤ length body.now }
    ensures { ends_out result ≡ end_of (run (section flag 1 7 1 (flat 27 group)) body.now at) }
{
    let n = head(body, at, size(flag, 1))?;
    rows_end(&Group, body, n, count_at(body, at, flag, 7) as usize)
}

// How many rows of the table below theirs the rows of a section have, and where it ends.
fn section_rows<R: Count>(
    row: &R,
    body: &[u8],
    at: usize,
    flag: u16,
) -> Result<(usize, usize), Short>
    requires { (at ≤ length body.now) × (R.Count.most * 31 < 2 ^ 32) }
    ensures { Summed (section flag 3 5 7 (R.Count.reads row.now)) (λ x. sum (R.Count.kids row.now) x.rows) (R.Count.most * 31) body.now at result }
{
    let n = head(body, at, size(flag, 1))?;
    rows_kids(row, body, n, count_at(body, at, flag, 5) as usize)
}

// The places of sections that have no rows, which stand one behind the other: they need no table. Else the body may have rows.
fn bare(body: &[u8], g: u16, s: u16, q: u16) -> Option<Places>
    requires { (2 ≤ length body.now) × Flags body.now g s q × (count_at 7 body.now g 2 ≡ 0) }
    ensures { Looks body.now (Ok result) }
{
    let switch_groups = rows_at(2, g);
    let presets = rows_at(switch_groups, s);
    let k = rows_at(presets, q);
    if body.len() < k {
        return None;
    }
    if (count_at(body, switch_groups, s, 5) == 0) & (count_at(body, presets, q, 5) == 0) {
        Some(Places {
            switch_groups,
            presets,
            members: 0,
            conditions: 0,
            k,
        })
    } else {
        None
    }
}

// A body that has a section, whose byte stands behind the first two. Groups are seen there at once.
fn first_section(body: &[u8], g: u16, s: u16, q: u16) -> Result<Option<Places>, Short>
    requires { (2 ≤ length body.now) × Flags body.now g s q × (32 ≤ get_or body.now 0 0) × (get_or body.now 0 0 < 256) }
    ensures { Looks body.now result }
{
    head(body, 2, 1)?;
    if count_at(body, 2, g, 7) != 0 {
        return Ok(None);
    }
    Ok(bare(body, g, s, q))
}

// What the first bytes of a body tell: it is cut there; or its sections have no rows, and these are their places; or it may have rows.
pub fn first_look(body: &[u8]) -> Result<Option<Places>, Short>
    ensures { Looks body.now result }
{
    let n = head(body, 0, 2)?;
    let flags = wide(body[0]);
    if flags < 32 {
        return Ok(Some(Places {
            switch_groups: n,
            presets: n,
            members: 0,
            conditions: 0,
            k: n,
        }));
    }
    first_section(
        body,
        part(flags, 7, 1),
        part(flags, 6, 1),
        part(flags, 5, 1),
    )
}

// The sections one after the other.
pub fn find_sections(body: &[u8]) -> Result<Places, Short>
    ensures { Walks body.now result }
{
    let n = head(body, 0, 2)?;
    let flags = wide(body[0]);
    let switch_groups = groups_end(body, n, part(flags, 7, 1))?;
    let (members, presets) = section_rows(&Switch, body, switch_groups, part(flags, 6, 1))?;
    let (conditions, k) = section_rows(&Preset, body, presets, part(flags, 5, 1))?;
    Ok(Places {
        switch_groups,
        presets,
        members,
        conditions,
        k,
    })
}

// ---- the body, once its sections were found

fn section_at(body: &[u8], at: usize, flag: u16, width: u32) -> Section
    requires { (rows_at flag at ≤ length body.now) × (width ≤ 8) }
    ensures { result ≡ sectionIs flag (count_at width body.now flag at) }
{
    Section {
        present: flag == 1,
        count: count_at(body, at, flag, width),
    }
}

// The reserved bits above the count of a section, all at 1 where it is absent.
fn reserved_at(body: &[u8], at: usize, flag: u16, width: u32, low: u32, ones: u16) -> u16
    requires { (rows_at flag at ≤ length body.now) × (low < 8) × (width ≤ 8) × (ones < 256) }
    ensures { (result ≡ reserved_at width low ones body.now flag at) × (result < 256) }
{
    if flag == 1 {
        part(wide(body[at]), low, width)
    } else {
        ones
    }
}

// The record.
pub fn record_at(body: &[u8], p: Places) -> MpegH3dAudioScene
    requires { Found body.now p × (length body.now < 2 ^ 16) }
    ensures { Tops kind body.now result }
{
    let flags = wide(body[0]);
    let g = part(flags, 7, 1);
    let s = part(flags, 6, 1);
    let q = part(flags, 5, 1);
    MpegH3dAudioScene {
        reserved_flags: part(flags, 0, 5) as u8,
        scene_info_id: part(wide(body[1]), 0, 8) as u8,
        groups: section_at(body, 2, g, 7),
        reserved_switch_groups: reserved_at(body, p.switch_groups, s, 3, 5, 7) as u8,
        switch_groups: section_at(body, p.switch_groups, s, 5),
        reserved_presets: reserved_at(body, p.presets, q, 3, 5, 7) as u8,
        presets: section_at(body, p.presets, q, 5),
        reserved_groups: reserved_at(body, 2, g, 1, 7, 1) as u8,
        trailing: trailing_run(p.k, body.len()),
    }
}

// What it needs.
pub fn sizes_at(body: &[u8], p: Places) -> Sizes
    requires { Found body.now p × (length body.now < 2 ^ 16) }
    ensures { Measures kind body.now (accepted (sized result)) }
{
    let flags = wide(body[0]);
    Sizes {
        groups: count_at(body, 2, part(flags, 7, 1), 7),
        switch_groups: count_at(body, p.switch_groups, part(flags, 6, 1), 5),
        members: p.members as u16,
        presets: count_at(body, p.presets, part(flags, 5, 1), 5),
        conditions: p.conditions as u16,
        k: p.k,
    }
}

// ---- the tables

// Where the rows of a section begin.
pub fn rows_at(at: usize, flag: u16) -> usize
    requires { at < 2 ^ 32 }
    ensures { result ≡ rows_at flag at }
{
    at + size(flag, 1)
}

fn fill_groups_section(body: &[u8], at: usize, flag: u16, groups: &mut [u16])
    requires { (rows_at flag at ≤ length body.now) × (is_done (run (many (count_at 7 body.now flag at) (flat 27 group)) body.now (rows_at flag at)) ≡ true) × (27 * count_at 7 body.now flag at ≤ length groups.old) × (at < 2 ^ 32) }
    ensures { groups.new ≡ sets groups.old 0 (flat_map (λ r. r) (rows_of (run (many (count_at 7 body.now flag at) (flat 27 group)) body.now (rows_at flag at)))) }
{
    let count = count_at(body, at, flag, 7);
    let _ = store_rows(&Group, body, rows_at(at, flag), count as usize, groups, 0);
}

// Of a section whose rows have rows of the table below theirs.
fn nest_section<R: Nest>(
    row: &R,
    body: &[u8],
    at: usize,
    flag: u16,
    outer: &mut [u16],
    inner: &mut [u16],
)
    requires { Fillable (many (count_at 5 body.now flag at) (R.Nest.reads row.now)) R.Nest.KID_COLUMNS (sum (R.Nest.size row.now)) body.now (rows_at flag at) 0 inner.old × R.Nest.may row.now body.now × (R.Nest.COLUMNS * count_at 5 body.now flag at ≤ length outer.old) × (at < 2 ^ 32) }
    ensures { Nests (R.Nest.reads row.now) (R.Nest.size row.now) (R.Nest.columns row.now) (R.Nest.kids row.now) body.now (rows_at flag at) (count_at 5 body.now flag at) outer.old inner.old outer.new inner.new }
{
    let count = count_at(body, at, flag, 5);
    nest_rows(row, body, rows_at(at, flag), count as usize, outer, inner);
}

// Tables 1 to 5.
pub fn fill(
    body: &[u8],
    p: Places,
    groups: &mut [u16],
    switch_groups: &mut [u16],
    members: &mut [u16],
    presets: &mut [u16],
    conditions: &mut [u16],
)
    requires { Found body.now p × (length body.now < 2 ^ 16) × Roomy kind body.now (groups.old ∷ switch_groups.old ∷ members.old ∷ presets.old ∷ conditions.old ∷ []) }
    ensures { Fills kind body.now (groups.old ∷ switch_groups.old ∷ members.old ∷ presets.old ∷ conditions.old ∷ []) (groups.new ∷ switch_groups.new ∷ members.new ∷ presets.new ∷ conditions.new ∷ []) }
{
    let flags = wide(body[0]);
    fill_groups_section(body, 2, part(flags, 7, 1), groups);
    let s = part(flags, 6, 1);
    nest_section(&Switch, body, p.switch_groups, s, switch_groups, members);
    let q = part(flags, 5, 1);
    nest_section(&Preset, body, p.presets, q, presets, conditions);
}
