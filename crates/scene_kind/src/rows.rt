// The top record of the scene body, with its constructor. The README names `columns`, so it stands where a `From` would.
ghost use Rattle.std.specs.Prelude.{◌≡◌, true, false};
ghost use Rattle.wire.specs.Prog.{span};
ghost use Rattle.scene_kind.specs.Rows.{top_row};

use wire::bits::{flag, wide};
use wire::rows::Payload;

// A list that is there or not, and how many rows it has.
// A flag and what it tells of, not an Option: `absent_groups` (proofs/Claims) says of an absent section that its contents are nowhere read.
#[derive(Clone, Copy, PartialEq, Eq)]
pub struct Section {
    pub present: bool,
    pub count: u16,
}

impl Section {
    pub fn of(count: u16) -> Self
        ensures { result ≡ record { present = true; count = count } }
    {
        Self {
            present: true,
            count,
        }
    }

    pub fn absent() -> Self
        ensures { result ≡ record { present = false; count = 0 } }
    {
        Self {
            present: false,
            count: 0,
        }
    }
}

#[derive(Clone, Copy, PartialEq, Eq)]
pub struct MpegH3dAudioScene {
    pub reserved_flags: u8,
    pub scene_info_id: u8,
    pub groups: Section,
    pub reserved_switch_groups: u8,
    pub switch_groups: Section,
    pub reserved_presets: u8,
    pub presets: Section,
    pub reserved_groups: u8,
    pub trailing: Payload,
}

// The columns of the top record.
pub const TOP_COLUMNS: usize = 13;

impl MpegH3dAudioScene {
    // Reserved bits all ones, no trailing run.
    pub fn new(scene_info_id: u8, groups: Section, switch_groups: Section, presets: Section) -> Self
        ensures { result ≡ record { reserved_flags = 31; scene_info_id = scene_info_id; groups = groups; reserved_switch_groups = 7; switch_groups = switch_groups; reserved_presets = 7; presets = presets; reserved_groups = 1; trailing = span 0 0 } }
    {
        Self {
            reserved_flags: 31,
            scene_info_id,
            groups,
            reserved_switch_groups: 7,
            switch_groups,
            reserved_presets: 7,
            presets,
            reserved_groups: 1,
            trailing: Payload {
                offset: 0,
                length: 0,
            },
        }
    }

    pub fn columns(self) -> [u16; TOP_COLUMNS]
        ensures { result ≡ top_row self }
    {
        [
            wide(self.reserved_flags),
            wide(self.scene_info_id),
            flag(self.groups.present),
            self.groups.count,
            wide(self.reserved_switch_groups),
            flag(self.switch_groups.present),
            self.switch_groups.count,
            wide(self.reserved_presets),
            flag(self.presets.present),
            self.presets.count,
            wide(self.reserved_groups),
            self.trailing.offset,
            self.trailing.length,
        ]
    }
}
