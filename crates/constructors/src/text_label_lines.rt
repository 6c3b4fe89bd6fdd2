// The text label body: its top record, languages and labels.
use super::lists::{bytes, rows};
use super::show;
use std::io;
use std::io::Stdout;
use text_label::rows::{
    DescriptionLanguage, MpegH3dAudioTextLabel, TextLabelEntry, TextLabelLanguage,
};
use wire::ids::{GroupId, GroupPresetId, SwitchGroupId};

fn top(out: Stdout, m: MpegH3dAudioTextLabel) -> io::Result<()> {
    show::line(out, b"MpegH3dAudioTextLabel::new", &m.columns())
}

fn language(out: Stdout, l: TextLabelLanguage) -> io::Result<()> {
    show::line(out, b"TextLabelLanguage::new", &l.columns())
}

fn group(out: Stdout, e: TextLabelEntry) -> io::Result<()> {
    show::line(out, b"TextLabelEntry::group", &e.columns())
}

// One constructor in the Rust; here two, one for each ID.
fn switch_group_or_preset(out: Stdout, e: TextLabelEntry) -> io::Result<()> {
    show::line(out, b"TextLabelEntry::switch_group_or_preset", &e.columns())
}

pub fn print(out: Stdout) -> io::Result<()> {
    top(out, MpegH3dAudioTextLabel::new(11, 0))?;
    top(out, MpegH3dAudioTextLabel::new(201, 301))?;
    let english = DescriptionLanguage(101, 110, 103);
    let other = DescriptionLanguage(201, 202, 203);
    language(
        out,
        TextLabelLanguage::new(english, rows(4), rows(5), rows(6)),
    )?;
    language(
        out,
        TextLabelLanguage::new(other, rows(0), rows(301), rows(302)),
    )?;
    group(out, TextLabelEntry::group(GroupId(11), bytes(4)))?;
    group(out, TextLabelEntry::group(GroupId(201), bytes(301)))?;
    switch_group_or_preset(
        out,
        TextLabelEntry::switch_group(SwitchGroupId(12), bytes(5)),
    )?;
    switch_group_or_preset(
        out,
        TextLabelEntry::switch_group(SwitchGroupId(202), bytes(302)),
    )?;
    switch_group_or_preset(out, TextLabelEntry::preset(GroupPresetId(13), bytes(6)))?;
    switch_group_or_preset(out, TextLabelEntry::preset(GroupPresetId(203), bytes(303)))
}
