// The top record of the multi_stream body (H.222.0 2.6.114, Table 2-125) and its constructors; the rows of table 8 are those of `stream_groups`. The README names `columns`, so it stands where a `From` would.
ghost use Rattle.std.specs.Prelude.{◌≡◌};
ghost use Rattle.wire.specs.Prog.{span};
ghost use Rattle.multi_stream.specs.Rows.{absent_main, present_main, top_row};

pub use stream_groups::rows::{Auxiliary, AuxiliaryLocation, GROUP_COLUMNS, MultiStreamGroup};
use wire::bits::{flag, ones, wide};
use wire::rows::Payload;

// The main-stream part; its groups are the first rows of table 8, by their count.
#[derive(Clone, Copy, PartialEq, Eq)]
pub struct MultiStreamMain {
    pub reserved_aux: u8,
    pub num_auxiliary_streams: u8,
    pub reserved_groups: u8,
    pub groups: u16,
}

impl MultiStreamMain {
    // Reserved bits all ones.
    pub fn new(num_auxiliary_streams: u8, groups: u16) -> Self
        ensures { result ≡ record { reserved_aux = 1; num_auxiliary_streams = num_auxiliary_streams; reserved_groups = 1; groups = groups } }
    {
        Self {
            reserved_aux: ones(1),
            num_auxiliary_streams,
            reserved_groups: ones(1),
            groups,
        }
    }
}

// The main-stream part, where there is one: thisIsMainStream is 1.
// A flag and what it tells of, not an Option: `absent_part` (proofs/Claims) says of an absent part that its contents are nowhere read.
#[derive(Clone, Copy, PartialEq, Eq)]
pub struct MainStream {
    pub present: bool,
    pub part: MultiStreamMain,
}

impl MainStream {
    pub fn absent() -> Self
        ensures { result ≡ absent_main }
    {
        Self {
            present: false,
            part: MultiStreamMain {
                reserved_aux: 0,
                num_auxiliary_streams: 0,
                reserved_groups: 0,
                groups: 0,
            },
        }
    }

    pub fn of(part: MultiStreamMain) -> Self
        ensures { result ≡ present_main part }
    {
        Self {
            present: true,
            part,
        }
    }
}

#[derive(Clone, Copy, PartialEq, Eq)]
pub struct MpegH3dAudioMultiStream {
    pub this_stream_id: u8,
    pub main: MainStream,
    pub trailing: Payload,
}

// The columns of the top record.
pub const TOP_COLUMNS: usize = 8;

impl MpegH3dAudioMultiStream {
    // No trailing run.
    pub fn new(this_stream_id: u8, main: MainStream) -> Self
        ensures { result ≡ record { this_stream_id = this_stream_id; main = main; trailing = span 0 0 } }
    {
        Self {
            this_stream_id,
            main,
            trailing: Payload {
                offset: 0,
                length: 0,
            },
        }
    }

    pub fn columns(self) -> [u16; TOP_COLUMNS]
        ensures { result ≡ top_row self }
    {
        [
            wide(self.this_stream_id),
            flag(self.main.present),
            wide(self.main.part.reserved_aux),
            wide(self.main.part.num_auxiliary_streams),
            wide(self.main.part.reserved_groups),
            self.main.part.groups,
            self.trailing.offset,
            self.trailing.length,
        ]
    }
}
