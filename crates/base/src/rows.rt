// The top record of the base body (H.222.0 2.6.106, Table 2-121) and its constructor. The base lends no tables. The README names `columns`, so it stands where a `From` would.
ghost use Rattle.std.specs.Prelude.{◌≡◌, true, false};
ghost use Rattle.wire.specs.Prog.{span};
ghost use Rattle.base.specs.Rows.{absent_sets, listed_sets, top_row};

use wire::bits::{flag, ones};
use wire::rows::Payload;

// The CompatibleSetIndication list, where there is one.
// A flag and what it tells of, not an Option: `absent_sets_lem` (proofs/Claims) says of an absent list that its contents are nowhere read.
#[derive(Clone, Copy, PartialEq, Eq)]
pub struct CompatibleSets {
    pub present: bool,
    pub indications: Payload,
}

impl CompatibleSets {
    pub fn absent() -> Self
        ensures { result ≡ absent_sets }
    {
        Self {
            present: false,
            indications: Payload {
                offset: 0,
                length: 0,
            },
        }
    }

    pub fn listed(indications: Payload) -> Self
        ensures { result ≡ listed_sets indications }
    {
        Self {
            present: true,
            indications,
        }
    }
}

#[derive(Clone, Copy, PartialEq, Eq)]
pub struct MpegH3dAudio {
    pub profile_level_indication: u8,
    pub interactivity_enabled: bool,
    pub compatible_sets: CompatibleSets,
    pub reserved_flags: u8,
    pub reserved_layout: u8,
    pub reference_channel_layout: u8,
    pub trailing: Payload,
}

// The columns of the top record.
pub const TOP_COLUMNS: usize = 10;

impl MpegH3dAudio {
    // Reserved bits all ones, and no trailing run.
    pub fn new(
        profile_level_indication: u8,
        interactivity_enabled: bool,
        compatible_sets: CompatibleSets,
        reference_channel_layout: u8,
    ) -> Self
        ensures { result ≡ record { profile_level_indication = profile_level_indication; interactivity_enabled = interactivity_enabled; compatible_sets = compatible_sets; reserved_flags = 63; reserved_layout = 3; reference_channel_layout = reference_channel_layout; trailing = span 0 0 } }
    {
        Self {
            profile_level_indication,
            interactivity_enabled,
            compatible_sets,
            reserved_flags: ones(6),
            reserved_layout: ones(2),
            reference_channel_layout,
            trailing: Payload {
                offset: 0,
                length: 0,
            },
        }
    }

    pub fn columns(self) -> [u16; TOP_COLUMNS]
        ensures { result ≡ top_row self }
    {
        [
            self.profile_level_indication as u16,
            flag(self.interactivity_enabled),
            flag(self.compatible_sets.present),
            self.compatible_sets.indications.offset,
            self.compatible_sets.indications.length,
            self.reserved_flags as u16,
            self.reserved_layout as u16,
            self.reference_channel_layout as u16,
            self.trailing.offset,
            self.trailing.length,
        ]
    }
}
