// The base body (kind 1) for hosts: numbers and slices in, one number out. The names are exported and each kind lends other tables, so the five modules stay apart. C has no Option: a flag stands beside what it tells of.
ghost use Rattle.std.specs.Prelude.{◌≡◌, []};
ghost use Rattle.wire.specs.Prog.{span};
ghost use Rattle.base.specs.Rows.{top_columns, top_row};
ghost use Rattle.base.specs.Kind.{kind};
ghost use Rattle.mpegh_c.specs.Host.{HostReads, HostMeasures, HostTallies, HostWrites};

use super::codes;
use base::parsing::head_end;
use base::rows::{CompatibleSets, MpegH3dAudio, TOP_COLUMNS};
use frame::Refusal;
use wire::rows::{Payload, put_row};

// 0, and the record's columns at the front of `top`; or 2, or 1, or 3.
pub fn mpegh_base_read(body: &[u8], top: &mut [u16]) -> u64
    ensures { HostReads kind top_columns top_row body.now top.old [] result top.new [] }
{
    // A body that ends before its sets is refused whatever is lent, and so before anything else.
    if let Err(x) = head_end(body) {
        return codes::refusal_code(Refusal::Short(x));
    }
    if top.len() < TOP_COLUMNS {
        return codes::unread(base::measure(body));
    }
    match base::read(body) {
        Ok(m) => {
            put_row(top, 0, &m.columns());
            0
        }
        Err(x) => codes::refusal_code(x),
    }
}

// k; or 2, or 1. There are no tables, so `rows` is left as it was.
pub fn mpegh_base_measure(body: &[u8], rows: &mut [u16]) -> u64
    ensures { HostMeasures kind body.now rows.old result rows.new }
{
    match base::measure(body) {
        Ok(s) => codes::code(0, s.k),
        Err(x) => codes::refusal_code(x),
    }
}

// The reserved bits at 0; or 2, or 1.
pub fn mpegh_base_tally(body: &[u8]) -> u64
    ensures { HostTallies kind body.now result }
{
    codes::tallied_code(base::tally(body))
}

// The length, and the body at the front of `out`; or a fault, or 10, or 4.
pub fn mpegh_base_write(
    profile_level_indication: u8,
    interactivity_enabled: bool,
    compatible_sets_present: bool,
    compatible_sets_offset: u16,
    compatible_sets_length: u16,
    reserved_flags: u8,
    reserved_layout: u8,
    reference_channel_layout: u8,
    trailing_offset: u16,
    trailing_length: u16,
    store: &[u8],
    out: &mut [u8],
) -> u64
    ensures { HostWrites kind (record { profile_level_indication = profile_level_indication; interactivity_enabled = interactivity_enabled; compatible_sets = record { present = compatible_sets_present; indications = span compatible_sets_offset compatible_sets_length }; reserved_flags = reserved_flags; reserved_layout = reserved_layout; reference_channel_layout = reference_channel_layout; trailing = span trailing_offset trailing_length }) [] store.now out.old result out.new }
{
    let m = MpegH3dAudio {
        profile_level_indication,
        interactivity_enabled,
        compatible_sets: CompatibleSets {
            present: compatible_sets_present,
            indications: Payload {
                offset: compatible_sets_offset,
                length: compatible_sets_length,
            },
        },
        reserved_flags,
        reserved_layout,
        reference_channel_layout,
        trailing: Payload {
            offset: trailing_offset,
            length: trailing_length,
        },
    };
    codes::written_code(base::write(m, store, out))
}
