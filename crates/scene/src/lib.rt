// The scene body (kind 2; H.222.0 2.6.110, Table 2-123): read, measure, tally and write. Its rows are those of tables 1 to 5. Each kind has these four functions, over its own tables, each a parameter as the README shows.
#![tactic(auto)]

pub mod parsing;
pub mod rows;
mod tallying;

ghost use Rattle.std.specs.Prelude.{◌≡◌, [], ◌∷◌, ◌<◌, ◌^◌, length};
ghost use Rattle.frame.specs.Numbers.{answer_of, written};
ghost use Rattle.frame.specs.Entry.{Reads, Measures, Tallies, Writes};
ghost use Rattle.frame.specs.Sight.{and_tables, Enough};
ghost use Rattle.scene_kind.specs.Kind.{kind};
ghost use Rattle.scene.specs.Contract.{sized, measured};
ghost use Rattle.scene.specs.Walk.{Found, Opens};

use conditions::rows::CONDITION_COLUMNS;
use frame::{Refusal, Room, Unwritten, and_table, write_bare};
use parsing::Places;
use presets::rows::PRESET_COLUMNS;
use rows::MpegH3dAudioScene;
use scene_groups::rows::GROUP_COLUMNS;
use scene_writing::writing;
use switch_groups::rows::{MEMBER_COLUMNS, SWITCH_GROUP_COLUMNS};

// What a body needs: the rows of tables 1 to 5, and k, the bytes before the trailing run.
#[derive(Clone, Copy, PartialEq, Eq)]
pub struct Sizes {
    pub groups: u16,
    pub switch_groups: u16,
    pub members: u16,
    pub presets: u16,
    pub conditions: u16,
    pub k: usize,
}

// What the body needs, or 2, or 1.
pub fn measure(body: &[u8]) -> Result<Sizes, Refusal>
    ensures { Measures kind body.now (measured result) }
{
    if 65535 < body.len() {
        return Err(Refusal::TooLong(body.len()));
    }
    let p = parsing::find_sections(body)?;
    Ok(parsing::sizes_at(body, p))
}

// The record of a body, its trailing run included, and its rows in tables 1 to 5; or 2, or 1, or 3.
pub fn read(
    body: &[u8],
    groups: &mut [u16],
    switch_groups: &mut [u16],
    members: &mut [u16],
    presets: &mut [u16],
    conditions: &mut [u16],
) -> Result<MpegH3dAudioScene, Refusal>
    ensures { Reads kind body.now (groups.old ∷ switch_groups.old ∷ members.old ∷ presets.old ∷ conditions.old ∷ []) (answer_of result) (groups.new ∷ switch_groups.new ∷ members.new ∷ presets.new ∷ conditions.new ∷ []) }
{
    let p = opened(body, groups, switch_groups, members, presets, conditions)?;
    Ok(parsing::record_at(body, p))
}

// All of reading but the record, which the places give; or why the body is refused. The tables are touched when all of the body is known to be sound.
pub fn opened(
    body: &[u8],
    groups: &mut [u16],
    switch_groups: &mut [u16],
    members: &mut [u16],
    presets: &mut [u16],
    conditions: &mut [u16],
) -> Result<Places, Refusal>
    ensures { Opens body.now (groups.old ∷ switch_groups.old ∷ members.old ∷ presets.old ∷ conditions.old ∷ []) result (groups.new ∷ switch_groups.new ∷ members.new ∷ presets.new ∷ conditions.new ∷ []) }
{
    if 65535 < body.len() {
        return Err(Refusal::TooLong(body.len()));
    }
    let bare = parsing::first_look(body)?;
    match bare {
        Some(p) => Ok(p),
        None => opened_rows(body, groups, switch_groups, members, presets, conditions),
    }
}

// A body that may have rows.
fn opened_rows(
    body: &[u8],
    groups: &mut [u16],
    switch_groups: &mut [u16],
    members: &mut [u16],
    presets: &mut [u16],
    conditions: &mut [u16],
) -> Result<Places, Refusal>
    requires { length body.now < 2 ^ 16 }
    ensures { Opens body.now (groups.old ∷ switch_groups.old ∷ members.old ∷ presets.old ∷ conditions.old ∷ []) result (groups.new ∷ switch_groups.new ∷ members.new ∷ presets.new ∷ conditions.new ∷ []) }
{
    let p = parsing::find_sections(body)?;
    opened_found(body, p, groups, switch_groups, members, presets, conditions)
}

// The lowest table that is short, else the rows.
fn opened_found(
    body: &[u8],
    p: Places,
    groups: &mut [u16],
    switch_groups: &mut [u16],
    members: &mut [u16],
    presets: &mut [u16],
    conditions: &mut [u16],
) -> Result<Places, Refusal>
    requires { Found body.now p × (length body.now < 2 ^ 16) }
    ensures { Opens body.now (groups.old ∷ switch_groups.old ∷ members.old ∷ presets.old ∷ conditions.old ∷ []) result (groups.new ∷ switch_groups.new ∷ members.new ∷ presets.new ∷ conditions.new ∷ []) }
{
    let s = parsing::sizes_at(body, p);
    room(s, groups, switch_groups, members, presets, conditions)?;
    parsing::fill(body, p, groups, switch_groups, members, presets, conditions);
    Ok(p)
}

// Whether the tables have the rows, from table to table.
fn room(
    s: Sizes,
    groups: &[u16],
    switch_groups: &[u16],
    members: &[u16],
    presets: &[u16],
    conditions: &[u16],
) -> Room
    ensures { result ≡ and_tables Enough (sized s).tables (groups.now ∷ switch_groups.now ∷ members.now ∷ presets.now ∷ conditions.now ∷ []) }
{
    let a = and_table(Ok(()), 1, GROUP_COLUMNS, s.groups as usize, groups);
    let b = and_table(
        a,
        2,
        SWITCH_GROUP_COLUMNS,
        s.switch_groups as usize,
        switch_groups,
    );
    let c = and_table(b, 3, MEMBER_COLUMNS, s.members as usize, members);
    let d = and_table(c, 4, PRESET_COLUMNS, s.presets as usize, presets);
    and_table(d, 5, CONDITION_COLUMNS, s.conditions as usize, conditions)
}

// The reserved bits at 0, or 2, or 1.
pub fn tally(body: &[u8]) -> Result<usize, Refusal>
    ensures { Tallies kind body.now (answer_of result) }
{
    if 65535 < body.len() {
        return Err(Refusal::TooLong(body.len()));
    }
    let p = parsing::find_sections(body)?;
    Ok(tallying::zero_bits(body, p))
}

// Writes the value at the front of the output, its rows taken from tables 1 to 5 and its trailing run from the store: first the faults, then 10, then 4.
pub fn write(
    m: MpegH3dAudioScene,
    groups: &[u16],
    switch_groups: &[u16],
    members: &[u16],
    presets: &[u16],
    conditions: &[u16],
    store: &[u8],
    out: &mut [u8],
) -> Result<usize, Unwritten>
    ensures { Writes kind m (groups.now ∷ switch_groups.now ∷ members.now ∷ presets.now ∷ conditions.now ∷ []) store.now out.old (written result) out.new }
{
    let sections = m.groups.present | (m.switch_groups.present | m.presets.present);
    if !sections {
        return write_bare(&writing::head_bytes(m), m.trailing, store, out);
    }
    let p = writing::check(
        m,
        groups,
        switch_groups,
        members,
        presets,
        conditions,
        store,
    );
    let n = frame::judge(p, out.len())?;
    writing::fill(
        m,
        groups,
        switch_groups,
        members,
        presets,
        conditions,
        store,
        out,
    );
    Ok(n)
}
