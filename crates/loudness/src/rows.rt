// The rows of table 11, with their constructor. The README names `columns` and `of_columns`, so they stand where `From` would.
ghost use Rattle.std.specs.Prelude.{◌≡◌, ◌+◌, ◌≤◌, length};
ghost use Rattle.loudness.specs.Layout.{types};
ghost use Rattle.loudness.specs.Rows.{entry_row, entry_of};

use scopes::rows::DrcScope;
use wire::bits::{ones, wide};
use wire::rows::Payload;

// What the loudness of a scope is: its bytes are not looked into.
#[derive(Clone, Copy, PartialEq, Eq)]
pub struct LoudnessInfoEntry {
    pub reserved_type: u16,
    pub scope: DrcScope,
    pub loudness_info: Payload,
}

// The columns of a row of table 11.
pub const ENTRY_COLUMNS: usize = 7;

// The types that carry a group ID here.
pub fn id_types() -> [u16; 2]
    ensures { result ≡ types }
{
    [1, 2]
}

impl LoudnessInfoEntry {
    // Reserved bits all ones.
    pub fn new(scope: DrcScope, loudness_info: Payload) -> Self
        ensures { result ≡ record { reserved_type = 63; scope = scope; loudness_info = loudness_info } }
    {
        Self {
            reserved_type: wide(ones(6)),
            scope,
            loudness_info,
        }
    }

    pub fn columns(self) -> [u16; ENTRY_COLUMNS]
        ensures { result ≡ entry_row self }
    {
        let s = self.scope.columns();
        [
            self.reserved_type,
            s[0],
            s[1],
            s[2],
            s[3],
            self.loudness_info.offset,
            self.loudness_info.length,
        ]
    }

    // The row whose first column is `b`.
    pub fn of_columns(t: &[u16], b: usize) -> Self
        requires { b + 7 ≤ length t.now }
        ensures { result ≡ entry_of t.now b }
    {
        Self {
            reserved_type: t[b],
            scope: DrcScope::of_columns(t, b + 1),
            loudness_info: Payload {
                offset: t[b + 5],
                length: t[b + 6],
            },
        }
    }
}
