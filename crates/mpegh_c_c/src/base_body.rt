// The base body (kind 1) for C: the functions of `mpegh_c`, under the same names. The names are exported and each kind lends other tables, so the five modules stay apart. C has no Option: a flag stands beside what it tells of.
ghost use Rattle.std.specs.Prelude.{[]};
ghost use Rattle.wire.specs.Prog.{span};
ghost use Rattle.base.specs.Rows.{top_columns, top_row};
ghost use Rattle.base.specs.Kind.{kind};
ghost use Rattle.mpegh_c.specs.Host.{HostReads, HostMeasures, HostTallies, HostWrites};

use mpegh_c::base_body;

// 0, and the record's columns at the front of `top`; or 2, or 1, or 3.
#[unsafe(no_mangle)]
pub extern "C" fn mpegh_base_read(body: &[u8], top: &mut [u16]) -> u64
    ensures { HostReads kind top_columns top_row body.now top.old [] result top.new [] }
{
    base_body::mpegh_base_read(body, top)
}

// k; or 2, or 1. There are no tables, so `rows` is left as it was.
#[unsafe(no_mangle)]
pub extern "C" fn mpegh_base_measure(body: &[u8], rows: &mut [u16]) -> u64
    ensures { HostMeasures kind body.now rows.old result rows.new }
{
    base_body::mpegh_base_measure(body, rows)
}

// The reserved bits at 0; or 2, or 1.
#[unsafe(no_mangle)]
pub extern "C" fn mpegh_base_tally(body: &[u8]) -> u64
    ensures { HostTallies kind body.now result }
{
    base_body::mpegh_base_tally(body)
}

// The length, and the body at the front of `out`; or a fault, or 10, or 4.
#[unsafe(no_mangle)]
pub extern "C" fn mpegh_base_write(
    profile_level_indication: u8,
    interactivity_enabled: bool,
    compatible_sets_present: bool,
    compatible_sets_offset: u16,
    compatible_sets_length: u16,
    reserved_flags: u8,
    reserved_layout: u8,
    reference_channel_layout: u8,
    trailing_offset: u16,
    trailing_length: u16,
    store: &[u8],
    out: &mut [u8],
) -> u64
    ensures { HostWrites kind (record { profile_level_indication = profile_level_indication; interactivity_enabled = interactivity_enabled; compatible_sets = record { present = compatible_sets_present; indications = span compatible_sets_offset compatible_sets_length }; reserved_flags = reserved_flags; reserved_layout = reserved_layout; reference_channel_layout = reference_channel_layout; trailing = span trailing_offset trailing_length }) [] store.now out.old result out.new }
{
    base_body::mpegh_base_write(
        profile_level_indication,
        interactivity_enabled,
        compatible_sets_present,
        compatible_sets_offset,
        compatible_sets_length,
        reserved_flags,
        reserved_layout,
        reference_channel_layout,
        trailing_offset,
        trailing_length,
        store,
        out,
    )
}
