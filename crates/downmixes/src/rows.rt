// The rows of table 12, with their constructor. The README names `columns` and `of_columns`, so they stand where `From` would.
ghost use Rattle.std.specs.Prelude.{◌≡◌, ◌+◌, ◌≤◌, length};
ghost use Rattle.downmixes.specs.Rows.{downmix_row, downmix_of};

use wire::bits::{ones, wide};

// One downmix ID, and what it stands for.
#[derive(Clone, Copy, PartialEq, Eq)]
pub struct DownmixDefinition {
    pub reserved: u16,
    pub downmix_id: u16,
    pub downmix_type: u16,
    pub cicp_speaker_layout_idx: u16,
}

// The columns of a row of table 12.
pub const DOWNMIX_COLUMNS: usize = 4;

impl DownmixDefinition {
    // Reserved bit 1.
    pub fn new(downmix_id: u16, downmix_type: u16, cicp_speaker_layout_idx: u16) -> Self
        ensures { result ≡ record { reserved = 1; downmix_id = downmix_id; downmix_type = downmix_type; cicp_speaker_layout_idx = cicp_speaker_layout_idx } }
    {
        Self {
            reserved: wide(ones(1)),
            downmix_id,
            downmix_type,
            cicp_speaker_layout_idx,
        }
    }

    pub fn columns(self) -> [u16; DOWNMIX_COLUMNS]
        ensures { result ≡ downmix_row self }
    {
        [
            self.reserved,
            self.downmix_id,
            self.downmix_type,
            self.cicp_speaker_layout_idx,
        ]
    }

    // The row whose first column is `b`.
    pub fn of_columns(t: &[u16], b: usize) -> Self
        requires { b + 4 ≤ length t.now }
        ensures { result ≡ downmix_of t.now b }
    {
        Self {
            reserved: t[b],
            downmix_id: t[b + 1],
            downmix_type: t[b + 2],
            cicp_speaker_layout_idx: t[b + 3],
        }
    }
}
