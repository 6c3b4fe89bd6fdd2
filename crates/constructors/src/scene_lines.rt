// The scene body: its top record, groups, switch groups and presets.
use super::lists::rows;
use super::show;
use conditions::rows::{PresetCondition, PresetConditionDetail, PresetGain, PresetPosition};
use presets::rows::GroupPreset;
use scene_groups::rows::{ContentLanguage, GainInteractivity, PositionInteractivity, SceneGroup};
use scene_kind::rows::{MpegH3dAudioScene, Section};
use std::io;
use std::io::Stdout;
use switch_groups::rows::{SwitchGroup, SwitchGroupMember};
use wire::ids::{GroupId, GroupPresetId, SwitchGroupId};

pub fn print(out: Stdout) -> io::Result<()> {
    print_top(out)?;
    print_groups(out)?;
    print_switch_groups(out)?;
    print_details(out)?;
    print_presets(out)
}

// ---- the top record

fn top(out: Stdout, m: MpegH3dAudioScene) -> io::Result<()> {
    show::line(out, b"MpegH3dAudioScene::new", &m.columns())
}

fn print_top(out: Stdout) -> io::Result<()> {
    let none = Section::absent();
    let empty = Section::of(0);
    top(out, MpegH3dAudioScene::new(11, none, none, none))?;
    top(
        out,
        MpegH3dAudioScene::new(12, Section::of(4), Section::of(5), Section::of(6)),
    )?;
    top(out, MpegH3dAudioScene::new(13, empty, none, none))?;
    top(out, MpegH3dAudioScene::new(14, none, empty, none))?;
    top(
        out,
        MpegH3dAudioScene::new(201, none, none, Section::of(301)),
    )
}

// ---- groups

fn position(out: Stdout, p: PositionInteractivity) -> io::Result<()> {
    let columns = [
        p.present,
        p.reserved_min_az,
        p.min_az_offset,
        p.reserved_max_az,
        p.max_az_offset,
        p.reserved_min_el,
        p.min_el_offset,
        p.reserved_max_el,
        p.max_el_offset,
        p.min_dist_offset,
        p.max_dist_offset,
    ];
    show::line(out, b"PositionInteractivity::new", &columns)
}

fn gain(out: Stdout, g: GainInteractivity) -> io::Result<()> {
    let columns = [
        g.present,
        g.reserved_min,
        g.min_gain,
        g.reserved_max,
        g.max_gain,
    ];
    show::line(out, b"GainInteractivity::new", &columns)
}

fn group(out: Stdout, g: SceneGroup) -> io::Result<()> {
    show::line(out, b"SceneGroup::new", &g.columns())
}

// The last group has all of its parts, which the constructor leaves out.
fn print_groups(out: Stdout) -> io::Result<()> {
    position(out, PositionInteractivity::new(11, 12, 13, 14, 16, 17))?;
    position(
        out,
        PositionInteractivity::new(201, 202, 203, 204, 205, 206),
    )?;
    gain(out, GainInteractivity::new(11, 12))?;
    gain(out, GainInteractivity::new(201, 202))?;
    group(out, SceneGroup::new(GroupId(11), true, false, 12))?;
    group(out, SceneGroup::new(GroupId(201), false, true, 202))?;
    let mut g = SceneGroup::new(GroupId(21), true, true, 22);
    g.position = PositionInteractivity::new(23, 24, 25, 26, 27, 28);
    g.gain = GainInteractivity::new(29, 30);
    g.content_language = ContentLanguage::new(101, 110, 103);
    group(out, g)
}

// ---- switch groups

fn member(out: Stdout, m: SwitchGroupMember) -> io::Result<()> {
    show::line(out, b"SwitchGroupMember::new", &m.columns())
}

fn switch_group(out: Stdout, g: SwitchGroup) -> io::Result<()> {
    show::line(out, b"SwitchGroup::new", &g.columns())
}

fn print_switch_groups(out: Stdout) -> io::Result<()> {
    member(out, SwitchGroupMember::new(GroupId(11)))?;
    member(out, SwitchGroupMember::new(GroupId(201)))?;
    switch_group(
        out,
        SwitchGroup::new(SwitchGroupId(11), true, false, rows(4), GroupId(12)),
    )?;
    switch_group(
        out,
        SwitchGroup::new(SwitchGroupId(201), false, true, rows(301), GroupId(202)),
    )
}

// ---- presets

fn preset_position(out: Stdout, p: PresetPosition) -> io::Result<()> {
    let columns = [
        p.present,
        p.az_offset,
        p.reserved_el,
        p.el_offset,
        p.reserved_dist,
        p.dist_factor,
    ];
    show::line(out, b"PresetPosition::new", &columns)
}

fn detail(out: Stdout, d: PresetConditionDetail) -> io::Result<()> {
    let g = d.gain;
    let p = d.position;
    let columns = [
        d.present,
        d.reserved,
        d.disable_gain_interactivity,
        d.disable_position_interactivity,
        g.present,
        g.gain,
        p.present,
        p.az_offset,
        p.reserved_el,
        p.el_offset,
        p.reserved_dist,
        p.dist_factor,
    ];
    show::line(out, b"PresetConditionDetail::new", &columns)
}

fn print_details(out: Stdout) -> io::Result<()> {
    let no_gain = PresetGain::absent();
    let no_position = PresetPosition::absent();
    let position = PresetPosition::new(21, 22, 23);
    preset_position(out, PresetPosition::new(11, 12, 13))?;
    preset_position(out, PresetPosition::new(201, 202, 203))?;
    detail(
        out,
        PresetConditionDetail::new(true, false, no_gain, no_position),
    )?;
    detail(
        out,
        PresetConditionDetail::new(false, true, PresetGain::new(11), no_position),
    )?;
    detail(
        out,
        PresetConditionDetail::new(true, false, no_gain, position),
    )?;
    detail(
        out,
        PresetConditionDetail::new(false, true, PresetGain::new(201), position),
    )
}

fn condition(out: Stdout, c: PresetCondition) -> io::Result<()> {
    show::line(out, b"PresetCondition::new", &c.columns())
}

fn preset(out: Stdout, p: GroupPreset) -> io::Result<()> {
    show::line(out, b"GroupPreset::new", &p.columns())
}

fn print_presets(out: Stdout) -> io::Result<()> {
    let position = PresetPosition::new(21, 22, 23);
    let full = PresetConditionDetail::new(true, false, PresetGain::new(13), position);
    let no_gain = PresetGain::absent();
    let plain = PresetConditionDetail::new(false, true, no_gain, PresetPosition::absent());
    condition(
        out,
        PresetCondition::new(GroupId(11), PresetConditionDetail::absent()),
    )?;
    condition(out, PresetCondition::new(GroupId(12), full))?;
    condition(out, PresetCondition::new(GroupId(201), plain))?;
    preset(out, GroupPreset::new(GroupPresetId(11), 12, rows(4)))?;
    preset(out, GroupPreset::new(GroupPresetId(201), 202, rows(301)))
}
