// The scene body (kind 2) for hosts: numbers and slices in, one number out. The names are exported and each kind lends other tables, so the five modules stay apart. C has no Option: a flag stands beside what it tells of.
ghost use Rattle.std.specs.Prelude.{◌≡◌, [], ◌∷◌};
ghost use Rattle.wire.specs.Prog.{span};
ghost use Rattle.scene_kind.specs.Rows.{top_columns, top_row};
ghost use Rattle.scene_kind.specs.Kind.{kind};
ghost use Rattle.mpegh_c.specs.Host.{HostReads, HostMeasures, HostTallies, HostWrites};

use super::codes;
use frame::Refusal;
use scene::parsing::record_at;
use scene::rows::{MpegH3dAudioScene, Section, TOP_COLUMNS};
use wire::reads::head;
use wire::rows::{Payload, put_row};

// 0, the record's columns at the front of `top` and the rows in tables 1 to 5; or 2, or 1, or 3.
pub fn mpegh_scene_read(
    body: &[u8],
    top: &mut [u16],
    groups: &mut [u16],
    switch_groups: &mut [u16],
    members: &mut [u16],
    presets: &mut [u16],
    conditions: &mut [u16],
) -> u64
    ensures { HostReads kind top_columns top_row body.now top.old (groups.old ∷ switch_groups.old ∷ members.old ∷ presets.old ∷ conditions.old ∷ []) result top.new (groups.new ∷ switch_groups.new ∷ members.new ∷ presets.new ∷ conditions.new ∷ []) }
{
    // A body that is cut here is refused whatever is lent, and so before anything else.
    if let Err(x) = head(body, 0, 2) {
        return codes::refusal_code(Refusal::Short(x));
    }
    if top.len() < TOP_COLUMNS {
        return codes::unread(scene::measure(body));
    }
    match scene::opened(body, groups, switch_groups, members, presets, conditions) {
        Ok(p) => {
            put_row(top, 0, &record_at(body, p).columns());
            0
        }
        Err(x) => codes::refusal_code(x),
    }
}

// k, and the rows of tables 1 to 5 at the front of `rows`; or 2, or 1, or 3.
pub fn mpegh_scene_measure(body: &[u8], rows: &mut [u16]) -> u64
    ensures { HostMeasures kind body.now rows.old result rows.new }
{
    match scene::measure(body) {
        Ok(s) => {
            if rows.len() < 5 {
                return codes::room_code(0, 1);
            }
            put_row(
                rows,
                0,
                &[
                    s.groups,
                    s.switch_groups,
                    s.members,
                    s.presets,
                    s.conditions,
                ],
            );
            codes::code(0, s.k)
        }
        Err(x) => codes::refusal_code(x),
    }
}

// The reserved bits at 0; or 2, or 1.
pub fn mpegh_scene_tally(body: &[u8]) -> u64
    ensures { HostTallies kind body.now result }
{
    codes::tallied_code(scene::tally(body))
}

// The length, and the body at the front of `out`; or a fault, or 10, or 4.
pub fn mpegh_scene_write(
    reserved_flags: u8,
    scene_info_id: u8,
    groups_present: bool,
    groups_count: u16,
    reserved_switch_groups: u8,
    switch_groups_present: bool,
    switch_groups_count: u16,
    reserved_presets: u8,
    presets_present: bool,
    presets_count: u16,
    reserved_groups: u8,
    trailing_offset: u16,
    trailing_length: u16,
    groups: &[u16],
    switch_groups: &[u16],
    members: &[u16],
    presets: &[u16],
    conditions: &[u16],
    store: &[u8],
    out: &mut [u8],
) -> u64
    ensures { HostWrites kind (record { reserved_flags = reserved_flags; scene_info_id = scene_info_id; groups = record { present = groups_present; count = groups_count }; reserved_switch_groups = reserved_switch_groups; switch_groups = record { present = switch_groups_present; count = switch_groups_count }; reserved_presets = reserved_presets; presets = record { present = presets_present; count = presets_count }; reserved_groups = reserved_groups; trailing = span trailing_offset trailing_length }) (groups.now ∷ switch_groups.now ∷ members.now ∷ presets.now ∷ conditions.now ∷ []) store.now out.old result out.new }
{
    let m = MpegH3dAudioScene {
        reserved_flags,
        scene_info_id,
        groups: Section {
            present: groups_present,
            count: groups_count,
        },
        reserved_switch_groups,
        switch_groups: Section {
            present: switch_groups_present,
            count: switch_groups_count,
        },
        reserved_presets,
        presets: Section {
            present: presets_present,
            count: presets_count,
        },
        reserved_groups,
        trailing: Payload {
            offset: trailing_offset,
            length: trailing_length,
        },
    };
    codes::written_code(scene::write(
        m,
        groups,
        switch_groups,
        members,
        presets,
        conditions,
        store,
        out,
    ))
}
