// The top record of the DRC and loudness body, with its constructors. The README names `columns`, so it stands where a `From` would.
ghost use Rattle.std.specs.Prelude.{◌≡◌, true, false};
ghost use Rattle.wire.specs.Prog.{span};
ghost use Rattle.drc_kind.specs.Rows.{no_info, top_row};

use wire::bits::{flag, ones, wide};
use wire::rows::Payload;

// The mpegh3daDrcAndLoudnessInfoPresent payload: its lists are the first rows of tables 9, 11 and 12, by their counts.
#[derive(Clone, Copy, PartialEq, Eq)]
pub struct DrcLoudnessInfo {
    pub reserved_drc: u8,
    pub reserved_loudness: u8,
    pub reserved_downmix: u8,
    pub drc_instructions: u16,
    pub loudness_infos: u16,
    pub downmix_definitions: u16,
}

impl DrcLoudnessInfo {
    // Reserved bits all ones.
    pub fn new(drc_instructions: u16, loudness_infos: u16, downmix_definitions: u16) -> Self
        ensures { result ≡ record { reserved_drc = 3; reserved_loudness = 3; reserved_downmix = 7; drc_instructions = drc_instructions; loudness_infos = loudness_infos; downmix_definitions = downmix_definitions } }
    {
        Self {
            reserved_drc: ones(2),
            reserved_loudness: ones(2),
            reserved_downmix: ones(3),
            drc_instructions,
            loudness_infos,
            downmix_definitions,
        }
    }
}

// That payload, where it is there.
// A flag and what it tells of, not an Option: `absent_info` (proofs/Claims) says of an absent part that its contents are nowhere read.
#[derive(Clone, Copy, PartialEq, Eq)]
pub struct Info {
    pub present: bool,
    pub part: DrcLoudnessInfo,
}

impl Info {
    pub fn absent() -> Self
        ensures { result ≡ no_info }
    {
        Self {
            present: false,
            part: DrcLoudnessInfo {
                reserved_drc: 0,
                reserved_loudness: 0,
                reserved_downmix: 0,
                drc_instructions: 0,
                loudness_infos: 0,
                downmix_definitions: 0,
            },
        }
    }

    pub fn of(part: DrcLoudnessInfo) -> Self
        ensures { result ≡ record { present = true; part = part } }
    {
        Self {
            present: true,
            part,
        }
    }
}

// The top record of the DRC and loudness body.
#[derive(Clone, Copy, PartialEq, Eq)]
pub struct MpegH3dAudioDrcLoudness {
    pub reserved: u8,
    pub info: Info,
    pub trailing: Payload,
}

// The columns of the top record.
pub const TOP_COLUMNS: usize = 10;

impl MpegH3dAudioDrcLoudness {
    // Reserved bits all ones, and no trailing run.
    pub fn new(info: Info) -> Self
        ensures { result ≡ record { reserved = 127; info = info; trailing = span 0 0 } }
    {
        Self {
            reserved: ones(7),
            info,
            trailing: Payload {
                offset: 0,
                length: 0,
            },
        }
    }

    pub fn columns(self) -> [u16; TOP_COLUMNS]
        ensures { result ≡ top_row self }
    {
        let info = self.info.part;
        [
            wide(self.reserved),
            flag(self.info.present),
            wide(info.reserved_drc),
            wide(info.reserved_loudness),
            wide(info.reserved_downmix),
            info.drc_instructions,
            info.loudness_infos,
            info.downmix_definitions,
            self.trailing.offset,
            self.trailing.length,
        ]
    }
}
