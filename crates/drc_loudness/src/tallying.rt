// The reserved bits at 0 of a body whose lists were found: those of its record, and of its rows.
ghost use Rattle.std.specs.Prelude.{◌<◌, ◌≤◌, ◌^◌, ◌≡◌, length};
ghost use Rattle.wire.specs.Layout.{of, tally};
ghost use Rattle.frame.specs.Numbers.{accepted};
ghost use Rattle.frame.specs.Entry.{Tallies};
ghost use Rattle.drc_kind.specs.Layout.{layouts};
ghost use Rattle.drc_kind.specs.Kind.{kind};
ghost use Rattle.drc_loudness.specs.Walk.{top_of, info_at, rows_at, Found};

use super::parsing::{Places, info_at, rows_at};
use downmixes::parsing::Downmix;
use drc_kind::rows::Info;
use instructions::parsing::Instruction;
use loudness::parsing::LoudnessEntry;
use wire::bits::{idle_bits, part, wide};
use wire::list::rows_zeros;

// Of the bytes before the lists.
fn top_zeros(body: &[u8], info: Info) -> u32
    requires { (rows_at body.now ≤ length body.now) × (info ≡ info_at body.now) }
    ensures { (result ≡ tally layouts (of (top_of body.now))) × (result < 2 ^ 8) }
{
    let own = idle_bits(part(wide(body[0]), 1, 7), 7);
    if info.present {
        let i = info.part;
        let drc = idle_bits(wide(i.reserved_drc), 2);
        let loudness = idle_bits(wide(i.reserved_loudness), 2);
        own + (drc + (loudness + idle_bits(wide(i.reserved_downmix), 3)))
    } else {
        own
    }
}

// All of them.
pub fn zero_bits(body: &[u8], p: Places) -> usize
    requires { Found body.now p × (length body.now < 2 ^ 16) }
    ensures { Tallies kind body.now (accepted result) }
{
    let info = info_at(body);
    let top = top_zeros(body, info);
    let i = info.part;
    let at = rows_at(body);
    let is = rows_zeros(&Instruction, body, at, i.drc_instructions as usize);
    let ls = rows_zeros(&LoudnessEntry, body, p.loudness, i.loudness_infos as usize);
    let ds = rows_zeros(&Downmix, body, p.downmixes, i.downmix_definitions as usize);
    (top + is.zeros + (ls.zeros + ds.zeros)) as usize
}
