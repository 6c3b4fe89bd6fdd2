// The DRC and loudness body: its top record, downmix definitions, scopes, loudness entries and instructions.
use super::lists::{bytes, rows};
use super::show;
use downmixes::rows::DownmixDefinition;
use drc_kind::rows::{DrcLoudnessInfo, Info, MpegH3dAudioDrcLoudness};
use instructions::rows::{DrcInstructions, LimiterPeakTarget};
use loudness::rows::LoudnessInfoEntry;
use scopes::rows::DrcScope;
use std::io;
use std::io::Stdout;
use target_loudness::rows::{DrcTargetLoudness, TargetLoudnessLower};
use wire::bits::wide;
use wire::ids::{DrcSetId, GroupId, GroupPresetId};

pub fn print(out: Stdout) -> io::Result<()> {
    print_top(out)?;
    print_downmixes(out)?;
    print_scopes(out)?;
    print_loudness(out)?;
    print_targets(out)?;
    print_instructions(out)
}

// ---- the top record

fn top(out: Stdout, m: MpegH3dAudioDrcLoudness) -> io::Result<()> {
    show::line(out, b"MpegH3dAudioDrcLoudness::new", &m.columns())
}

fn info(out: Stdout, i: DrcLoudnessInfo) -> io::Result<()> {
    let columns = [
        wide(i.reserved_drc),
        wide(i.reserved_loudness),
        wide(i.reserved_downmix),
        i.drc_instructions,
        i.loudness_infos,
        i.downmix_definitions,
    ];
    show::line(out, b"DrcLoudnessInfo::new", &columns)
}

fn print_top(out: Stdout) -> io::Result<()> {
    let i = DrcLoudnessInfo::new(4, 5, 6);
    top(out, MpegH3dAudioDrcLoudness::new(Info::absent()))?;
    top(out, MpegH3dAudioDrcLoudness::new(Info::of(i)))?;
    info(out, i)?;
    info(out, DrcLoudnessInfo::new(301, 0, 302))
}

// ---- downmix definitions

fn downmix(out: Stdout, m: DownmixDefinition) -> io::Result<()> {
    show::line(out, b"DownmixDefinition::new", &m.columns())
}

fn print_downmixes(out: Stdout) -> io::Result<()> {
    downmix(out, DownmixDefinition::new(11, 12, 13))?;
    downmix(out, DownmixDefinition::new(201, 202, 203))
}

// ---- scopes

fn group(out: Stdout, s: DrcScope) -> io::Result<()> {
    show::line(out, b"DrcScope::group", &s.columns())
}

fn preset(out: Stdout, s: DrcScope) -> io::Result<()> {
    show::line(out, b"DrcScope::preset", &s.columns())
}

fn print_scopes(out: Stdout) -> io::Result<()> {
    group(out, DrcScope::group(11, GroupId(12)))?;
    group(out, DrcScope::group(201, GroupId(202)))?;
    preset(out, DrcScope::preset(GroupPresetId(11)))?;
    preset(out, DrcScope::preset(GroupPresetId(201)))
}

// ---- loudness entries

fn entry(out: Stdout, e: LoudnessInfoEntry) -> io::Result<()> {
    show::line(out, b"LoudnessInfoEntry::new", &e.columns())
}

fn print_loudness(out: Stdout) -> io::Result<()> {
    let group = DrcScope::group(12, GroupId(13));
    let preset = DrcScope::preset(GroupPresetId(201));
    entry(out, LoudnessInfoEntry::new(DrcScope::Plain(11), bytes(4)))?;
    entry(out, LoudnessInfoEntry::new(group, bytes(5)))?;
    entry(out, LoudnessInfoEntry::new(preset, bytes(301)))
}

// ---- instructions

fn target(out: Stdout, t: DrcTargetLoudness) -> io::Result<()> {
    let lower = t.lower;
    let columns = [
        t.present,
        t.reserved_upper,
        t.upper,
        lower.present,
        lower.reserved,
        lower.value,
        t.reserved_depends,
        t.depends_on_drc_set.0,
        t.no_independent_use_or_reserved,
    ];
    show::line(out, b"DrcTargetLoudness::new", &columns)
}

// With the lower value, which the constructor leaves out.
fn with_lower() -> DrcTargetLoudness {
    let mut t = DrcTargetLoudness::new(21, DrcSetId(22), 23);
    t.lower = TargetLoudnessLower::new(24);
    t
}

fn print_targets(out: Stdout) -> io::Result<()> {
    target(out, DrcTargetLoudness::new(11, DrcSetId(12), 13))?;
    target(out, DrcTargetLoudness::new(201, DrcSetId(202), 203))?;
    target(out, with_lower())
}

fn instruction(out: Stdout, d: DrcInstructions) -> io::Result<()> {
    show::line(out, b"DrcInstructions::new", &d.columns())
}

// The last instruction has all of its parts, which the constructor leaves out.
fn print_instructions(out: Stdout) -> io::Result<()> {
    let group = DrcScope::group(16, GroupId(17));
    let preset = DrcScope::preset(GroupPresetId(201));
    instruction(
        out,
        DrcInstructions::new(DrcScope::Plain(11), DrcSetId(12), 13, 14),
    )?;
    instruction(out, DrcInstructions::new(group, DrcSetId(18), 19, 20))?;
    instruction(out, DrcInstructions::new(preset, DrcSetId(202), 203, 60001))?;
    let mut d = DrcInstructions::new(DrcScope::Plain(25), DrcSetId(26), 27, 28);
    d.additional_downmix_ids = rows(4);
    d.limiter_peak_target = LimiterPeakTarget::new(29);
    d.target_loudness = with_lower();
    instruction(out, d)
}
