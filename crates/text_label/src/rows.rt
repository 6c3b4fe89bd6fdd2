// The top record of the text label body and the rows of tables 6 and 7 (H.222.0 2.6.112, Table 2-124), with their constructors. The README names `columns` and `of_columns`, so they stand where `From` would.
ghost use Rattle.std.specs.Prelude.{◌≡◌, ◌+◌, ◌≤◌, length};
ghost use Rattle.wire.specs.Prog.{span};
ghost use Rattle.labels.specs.Rows.{descriptions};
ghost use Rattle.text_label.specs.Rows.{language_row, language_of, top_row};

pub use labels::rows::{Descriptions, ENTRY_COLUMNS, TextLabelEntry};
use wire::bits::{ones, wide};
use wire::rows::{Payload, Range};

// descriptionLanguage: three characters of ISO 639-2.
#[derive(Clone, Copy, PartialEq, Eq)]
pub struct DescriptionLanguage(pub u16, pub u16, pub u16);

// A row of table 6: one language.
#[derive(Clone, Copy, PartialEq, Eq)]
pub struct TextLabelLanguage {
    pub language: DescriptionLanguage,
    pub groups: Descriptions,
    pub switch_groups: Descriptions,
    pub presets: Descriptions,
}

// The columns of a row of table 6.
pub const LANGUAGE_COLUMNS: usize = 12;

impl TextLabelLanguage {
    // Reserved bits all ones.
    pub fn new(
        language: DescriptionLanguage,
        groups: Range,
        switch_groups: Range,
        presets: Range,
    ) -> Self
        ensures { result ≡ record { language = language; groups = descriptions 1 groups; switch_groups = descriptions 7 switch_groups; presets = descriptions 7 presets } }
    {
        Self {
            language,
            groups: Descriptions::of_groups(groups),
            switch_groups: Descriptions::of_switch_groups_or_presets(switch_groups),
            presets: Descriptions::of_switch_groups_or_presets(presets),
        }
    }

    pub fn columns(self) -> [u16; LANGUAGE_COLUMNS]
        ensures { result ≡ language_row self }
    {
        [
            self.language.0,
            self.language.1,
            self.language.2,
            self.groups.reserved,
            self.groups.entries.first,
            self.groups.entries.count,
            self.switch_groups.reserved,
            self.switch_groups.entries.first,
            self.switch_groups.entries.count,
            self.presets.reserved,
            self.presets.entries.first,
            self.presets.entries.count,
        ]
    }

    // The row whose first column is `at`.
    pub fn of_columns(table: &[u16], at: usize) -> Self
        requires { at + 12 ≤ length table.now }
        ensures { result ≡ language_of table.now at }
    {
        Self {
            language: DescriptionLanguage(table[at], table[at + 1], table[at + 2]),
            groups: Descriptions::of_columns(table, at + 3),
            switch_groups: Descriptions::of_columns(table, at + 6),
            presets: Descriptions::of_columns(table, at + 9),
        }
    }
}

// Its languages are the first rows of table 6, by their count.
#[derive(Clone, Copy, PartialEq, Eq)]
pub struct MpegH3dAudioTextLabel {
    pub scene_info_id: u8,
    pub reserved: u8,
    pub languages: u16,
    pub trailing: Payload,
}

// The columns of the top record.
pub const TOP_COLUMNS: usize = 5;

impl MpegH3dAudioTextLabel {
    // Reserved bits all ones, no trailing run.
    pub fn new(scene_info_id: u8, languages: u16) -> Self
        ensures { result ≡ record { scene_info_id = scene_info_id; reserved = 15; languages = languages; trailing = span 0 0 } }
    {
        Self {
            scene_info_id,
            reserved: ones(4),
            languages,
            trailing: Payload {
                offset: 0,
                length: 0,
            },
        }
    }

    pub fn columns(self) -> [u16; TOP_COLUMNS]
        ensures { result ≡ top_row self }
    {
        [
            wide(self.scene_info_id),
            wide(self.reserved),
            self.languages,
            self.trailing.offset,
            self.trailing.length,
        ]
    }
}
