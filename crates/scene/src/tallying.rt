// The reserved bits at 0 of a body whose sections were found: those of each section, its byte and its rows.
ghost use Rattle.std.specs.Prelude.{◌≡◌, true, ◌+◌, ◌-◌, ◌*◌, ◌<◌, ◌≤◌, ◌^◌, length};
ghost use Rattle.wire.specs.Lists.{sum};
ghost use Rattle.wire.specs.Prog.{run, many};
ghost use Rattle.wire.specs.Reads.{is_done, rows_of};
ghost use Rattle.wire.specs.Layout.{of};
ghost use Rattle.frame.specs.Numbers.{accepted};
ghost use Rattle.frame.specs.Entry.{Tallies};
ghost use Rattle.presets.specs.Layout.{presets};
ghost use Rattle.scene_kind.specs.Kind.{kind};
ghost use Rattle.scene.specs.Walk.{rows_at, count_at, reserved_zeros, Found};

use super::parsing::{Places, count_at, rows_at};
use presets::parsing::Preset;
use scene_groups::parsing::Group;
use switch_groups::parsing::Switch;
use wire::bits::{idle_bits, part, wide};
use wire::list::{Tally, rows_zeros};

// The reserved bits above the count of a section.
fn reserved_zeros(body: &[u8], at: usize, flag: u16, width: u32, low: u32) -> u32
    requires { (rows_at flag at ≤ length body.now) × (low < 8) × (width ≤ 8) }
    ensures { result ≡ reserved_zeros width low body.now flag at }
{
    if flag == 1 {
        idle_bits(part(wide(body[at]), low, width), width)
    } else {
        0
    }
}

// Of a section: those above its count of `width` bits, and those of its rows.
fn section_zeros<R: Tally>(row: &R, body: &[u8], at: usize, flag: u16, width: u32) -> usize
    requires { (rows_at flag at ≤ length body.now) × (is_done (run (many (count_at width body.now flag at) (R.Tally.reads row.now)) body.now (rows_at flag at)) ≡ true) × R.Tally.may row.now body.now × (width < 8) × (R.Tally.most * 2 ^ width < 2 ^ 32) × (at < 2 ^ 32) }
    ensures { (result ≡ reserved_zeros (8 - width) width body.now flag at + sum (R.Tally.zeros row.now) (rows_of (run (many (count_at width body.now flag at) (R.Tally.reads row.now)) body.now (rows_at flag at)))) × (result < 2 ^ 33) }
{
    let reserved = reserved_zeros(body, at, flag, 8 - width, width) as usize;
    let count = count_at(body, at, flag, width) as usize;
    reserved + (rows_zeros(row, body, rows_at(at, flag), count).zeros as usize)
}

// All of them.
pub fn zero_bits(body: &[u8], p: Places) -> usize
    requires { Found body.now p × (length body.now < 2 ^ 16) }
    ensures { Tallies kind body.now (accepted result) }
{
    let flags = wide(body[0]);
    let top = idle_bits(part(flags, 0, 5), 5) as usize;
    let g = section_zeros(&Group, body, 2, part(flags, 7, 1), 7);
    let s = section_zeros(&Switch, body, p.switch_groups, part(flags, 6, 1), 5);
    let q = section_zeros(&Preset, body, p.presets, part(flags, 5, 1), 5);
    top + g + (s + q)
}
