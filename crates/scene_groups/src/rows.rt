// The rows of table 1 with their parts, and their constructors. The README names `columns` and `of_columns`, so they stand where `From` would.
ghost use Rattle.std.specs.Prelude.{◌≡◌, ◌+◌, ◌<◌, ◌≤◌, length, get_or};
ghost use Rattle.wire.specs.Bits.{bit};
ghost use Rattle.scene_groups.specs.Rows.{group_row, group_of, position_of, gain_of, language_of, no_position, no_gain, no_language};

use wire::bits::flag;
use wire::ids::GroupId;

// Column `k` of the row of table 1 whose first column is `b`: the index is proved here alone.
pub fn column(t: &[u16], b: usize, k: usize) -> u16
    requires { (b + 27 ≤ length t.now) × (k < 27) }
    ensures { result ≡ get_or t.now (b + k) 0 }
{
    t[b + k]
}

// mae_groupPositionInteractivity, where it is there.
// `present` is a column, not an Option: `position_of` gives any number that is lent, and writing refuses one above 1.
#[derive(Clone, Copy, PartialEq, Eq)]
pub struct PositionInteractivity {
    pub present: u16,
    pub reserved_min_az: u16,
    pub min_az_offset: u16,
    pub reserved_max_az: u16,
    pub max_az_offset: u16,
    pub reserved_min_el: u16,
    pub min_el_offset: u16,
    pub reserved_max_el: u16,
    pub max_el_offset: u16,
    pub min_dist_offset: u16,
    pub max_dist_offset: u16,
}

// mae_groupGainInteractivity, where it is there.
// `present` is a column, not an Option: `gain_of` gives any number that is lent, and writing refuses one above 1.
#[derive(Clone, Copy, PartialEq, Eq)]
pub struct GainInteractivity {
    pub present: u16,
    pub reserved_min: u16,
    pub min_gain: u16,
    pub reserved_max: u16,
    pub max_gain: u16,
}

// mae_contentLanguage, where it is there.
// `present` is a column, not an Option: `language_of` gives any number that is lent, and writing refuses one above 1.
#[derive(Clone, Copy, PartialEq, Eq)]
pub struct ContentLanguage {
    pub present: u16,
    pub first: u16,
    pub second: u16,
    pub third: u16,
}

impl PositionInteractivity {
    // Reserved bits all ones.
    pub fn new(
        min_az_offset: u16,
        max_az_offset: u16,
        min_el_offset: u16,
        max_el_offset: u16,
        min_dist_offset: u16,
        max_dist_offset: u16,
    ) -> Self
        ensures { result ≡ record { present = 1; reserved_min_az = 1; min_az_offset = min_az_offset; reserved_max_az = 1; max_az_offset = max_az_offset; reserved_min_el = 7; min_el_offset = min_el_offset; reserved_max_el = 7; max_el_offset = max_el_offset; min_dist_offset = min_dist_offset; max_dist_offset = max_dist_offset } }
    {
        Self {
            present: 1,
            reserved_min_az: 1,
            min_az_offset,
            reserved_max_az: 1,
            max_az_offset,
            reserved_min_el: 7,
            min_el_offset,
            reserved_max_el: 7,
            max_el_offset,
            min_dist_offset,
            max_dist_offset,
        }
    }

    pub fn absent() -> Self
        ensures { result ≡ no_position }
    {
        Self {
            present: 0,
            reserved_min_az: 0,
            min_az_offset: 0,
            reserved_max_az: 0,
            max_az_offset: 0,
            reserved_min_el: 0,
            min_el_offset: 0,
            reserved_max_el: 0,
            max_el_offset: 0,
            min_dist_offset: 0,
            max_dist_offset: 0,
        }
    }

    // Of the row whose first column is `b`.
    pub fn of_columns(t: &[u16], b: usize) -> Self
        requires { b + 27 ≤ length t.now }
        ensures { result ≡ position_of t.now b }
    {
        Self {
            present: column(t, b, 7),
            reserved_min_az: column(t, b, 8),
            min_az_offset: column(t, b, 9),
            reserved_max_az: column(t, b, 10),
            max_az_offset: column(t, b, 11),
            reserved_min_el: column(t, b, 12),
            min_el_offset: column(t, b, 13),
            reserved_max_el: column(t, b, 14),
            max_el_offset: column(t, b, 15),
            min_dist_offset: column(t, b, 16),
            max_dist_offset: column(t, b, 17),
        }
    }
}

impl GainInteractivity {
    // Reserved bits all ones.
    pub fn new(min_gain: u16, max_gain: u16) -> Self
        ensures { result ≡ record { present = 1; reserved_min = 3; min_gain = min_gain; reserved_max = 7; max_gain = max_gain } }
    {
        Self {
            present: 1,
            reserved_min: 3,
            min_gain,
            reserved_max: 7,
            max_gain,
        }
    }

    pub fn absent() -> Self
        ensures { result ≡ no_gain }
    {
        Self {
            present: 0,
            reserved_min: 0,
            min_gain: 0,
            reserved_max: 0,
            max_gain: 0,
        }
    }

    // Of the row whose first column is `b`.
    pub fn of_columns(t: &[u16], b: usize) -> Self
        requires { b + 27 ≤ length t.now }
        ensures { result ≡ gain_of t.now b }
    {
        Self {
            present: column(t, b, 18),
            reserved_min: column(t, b, 19),
            min_gain: column(t, b, 20),
            reserved_max: column(t, b, 21),
            max_gain: column(t, b, 22),
        }
    }
}

impl ContentLanguage {
    pub fn new(first: u16, second: u16, third: u16) -> Self
        ensures { result ≡ record { present = 1; first = first; second = second; third = third } }
    {
        Self {
            present: 1,
            first,
            second,
            third,
        }
    }

    pub fn absent() -> Self
        ensures { result ≡ no_language }
    {
        Self {
            present: 0,
            first: 0,
            second: 0,
            third: 0,
        }
    }

    // Of the row whose first column is `b`.
    pub fn of_columns(t: &[u16], b: usize) -> Self
        requires { b + 27 ≤ length t.now }
        ensures { result ≡ language_of t.now b }
    {
        Self {
            present: column(t, b, 23),
            first: column(t, b, 24),
            second: column(t, b, 25),
            third: column(t, b, 26),
        }
    }
}

#[derive(Clone, Copy, PartialEq, Eq)]
pub struct SceneGroup {
    pub reserved_id: u16,
    pub group_id: GroupId,
    pub reserved_flags: u16,
    pub allow_on_off: u16,
    pub default_on_off: u16,
    pub reserved_kind: u16,
    pub content_kind: u16,
    pub position: PositionInteractivity,
    pub gain: GainInteractivity,
    pub content_language: ContentLanguage,
}

// The columns of a row of table 1.
pub const GROUP_COLUMNS: usize = 27;

impl SceneGroup {
    // Reserved bits all ones, and no part.
    pub fn new(
        group_id: GroupId,
        allow_on_off: bool,
        default_on_off: bool,
        content_kind: u16,
    ) -> Self
        ensures { result ≡ record { reserved_id = 1; group_id = group_id; reserved_flags = 7; allow_on_off = bit allow_on_off; default_on_off = bit default_on_off; reserved_kind = 15; content_kind = content_kind; position = no_position; gain = no_gain; content_language = no_language } }
    {
        Self {
            reserved_id: 1,
            group_id,
            reserved_flags: 7,
            allow_on_off: flag(allow_on_off),
            default_on_off: flag(default_on_off),
            reserved_kind: 15,
            content_kind,
            position: PositionInteractivity::absent(),
            gain: GainInteractivity::absent(),
            content_language: ContentLanguage::absent(),
        }
    }

    pub fn columns(self) -> [u16; GROUP_COLUMNS]
        ensures { result ≡ group_row self }
    {
        let p = self.position;
        let g = self.gain;
        let l = self.content_language;
        [
            self.reserved_id,
            self.group_id.0,
            self.reserved_flags,
            self.allow_on_off,
            self.default_on_off,
            self.reserved_kind,
            self.content_kind,
            p.present,
            p.reserved_min_az,
            p.min_az_offset,
            p.reserved_max_az,
            p.max_az_offset,
            p.reserved_min_el,
            p.min_el_offset,
            p.reserved_max_el,
            p.max_el_offset,
            p.min_dist_offset,
            p.max_dist_offset,
            g.present,
            g.reserved_min,
            g.min_gain,
            g.reserved_max,
            g.max_gain,
            l.present,
            l.first,
            l.second,
            l.third,
        ]
    }

    // The row whose first column is `b`.
    pub fn of_columns(t: &[u16], b: usize) -> Self
        requires { b + 27 ≤ length t.now }
        ensures { result ≡ group_of t.now b }
    {
        Self {
            reserved_id: t[b],
            group_id: GroupId(column(t, b, 1)),
            reserved_flags: column(t, b, 2),
            allow_on_off: column(t, b, 3),
            default_on_off: column(t, b, 4),
            reserved_kind: column(t, b, 5),
            content_kind: column(t, b, 6),
            position: PositionInteractivity::of_columns(t, b),
            gain: GainInteractivity::of_columns(t, b),
            content_language: ContentLanguage::of_columns(t, b),
        }
    }
}
