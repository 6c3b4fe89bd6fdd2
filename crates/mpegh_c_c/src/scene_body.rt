// The scene body (kind 2) for C: the functions of `mpegh_c`, under the same names. The names are exported and each kind lends other tables, so the five modules stay apart. C has no Option: a flag stands beside what it tells of.
ghost use Rattle.std.specs.Prelude.{[], ◌∷◌};
ghost use Rattle.wire.specs.Prog.{span};
ghost use Rattle.scene_kind.specs.Rows.{top_columns, top_row};
ghost use Rattle.scene_kind.specs.Kind.{kind};
ghost use Rattle.mpegh_c.specs.Host.{HostReads, HostMeasures, HostTallies, HostWrites};

use mpegh_c::scene_body;

// 0, the record's columns at the front of `top` and the rows in tables 1 to 5; or 2, or 1, or 3.
#[unsafe(no_mangle)]
pub extern "C" fn mpegh_scene_read(
    body: &[u8],
    top: &mut [u16],
    groups: &mut [u16],
    switch_groups: &mut [u16],
    members: &mut [u16],
    presets: &mut [u16],
    conditions: &mut [u16],
) -> u64
    ensures { HostReads kind top_columns top_row body.now top.old (groups.old ∷ switch_groups.old ∷ members.old ∷ presets.old ∷ conditions.old ∷ []) result top.new (groups.new ∷ switch_groups.new ∷ members.new ∷ presets.new ∷ conditions.new ∷ []) }
{
    scene_body::mpegh_scene_read(
        body,
        top,
        groups,
        switch_groups,
        members,
        presets,
        conditions,
    )
}

// k, and the rows of tables 1 to 5 at the front of `rows`; or 2, or 1, or 3.
#[unsafe(no_mangle)]
pub extern "C" fn mpegh_scene_measure(body: &[u8], rows: &mut [u16]) -> u64
    ensures { HostMeasures kind body.now rows.old result rows.new }
{
    scene_body::mpegh_scene_measure(body, rows)
}

// The reserved bits at 0; or 2, or 1.
#[unsafe(no_mangle)]
pub extern "C" fn mpegh_scene_tally(body: &[u8]) -> u64
    ensures { HostTallies kind body.now result }
{
    scene_body::mpegh_scene_tally(body)
}

// The length, and the body at the front of `out`; or a fault, or 10, or 4.
#[unsafe(no_mangle)]
pub extern "C" fn mpegh_scene_write(
    reserved_flags: u8,
    scene_info_id: u8,
    groups_present: bool,
    groups_count: u16,
    reserved_switch_groups: u8,
    switch_groups_present: bool,
    switch_groups_count: u16,
    reserved_presets: u8,
    presets_present: bool,
    presets_count: u16,
    reserved_groups: u8,
    trailing_offset: u16,
    trailing_length: u16,
    groups: &[u16],
    switch_groups: &[u16],
    members: &[u16],
    presets: &[u16],
    conditions: &[u16],
    store: &[u8],
    out: &mut [u8],
) -> u64
    ensures { HostWrites kind (record { reserved_flags = reserved_flags; scene_info_id = scene_info_id; groups = record { present = groups_present; count = groups_count }; reserved_switch_groups = reserved_switch_groups; switch_groups = record { present = switch_groups_present; count = switch_groups_count }; reserved_presets = reserved_presets; presets = record { present = presets_present; count = presets_count }; reserved_groups = reserved_groups; trailing = span trailing_offset trailing_length }) (groups.now ∷ switch_groups.now ∷ members.now ∷ presets.now ∷ conditions.now ∷ []) store.now out.old result out.new }
{
    scene_body::mpegh_scene_write(
        reserved_flags,
        scene_info_id,
        groups_present,
        groups_count,
        reserved_switch_groups,
        switch_groups_present,
        switch_groups_count,
        reserved_presets,
        presets_present,
        presets_count,
        reserved_groups,
        trailing_offset,
        trailing_length,
        groups,
        switch_groups,
        members,
        presets,
        conditions,
        store,
        out,
    )
}
