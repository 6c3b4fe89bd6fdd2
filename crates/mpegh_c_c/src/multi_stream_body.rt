// The multi_stream body (kind 4) for C: the functions of `mpegh_c`, under the same names. The names are exported and each kind lends other tables, so the five modules stay apart. C has no Option: a flag stands beside what it tells of.
ghost use Rattle.std.specs.Prelude.{[], ◌∷◌};
ghost use Rattle.wire.specs.Prog.{span};
ghost use Rattle.multi_stream.specs.Rows.{top_columns, top_row};
ghost use Rattle.multi_stream.specs.Kind.{kind};
ghost use Rattle.mpegh_c.specs.Host.{HostReads, HostMeasures, HostTallies, HostWrites};

use mpegh_c::multi_stream_body;

// 0, the record's columns at the front of `top` and the groups in table 8; or 2, or 1, or 3.
#[unsafe(no_mangle)]
pub extern "C" fn mpegh_multi_stream_read(body: &[u8], top: &mut [u16], groups: &mut [u16]) -> u64
    ensures { HostReads kind top_columns top_row body.now top.old (groups.old ∷ []) result top.new (groups.new ∷ []) }
{
    multi_stream_body::mpegh_multi_stream_read(body, top, groups)
}

// k, and the rows of table 8 at the front of `rows`; or 2, or 1, or 3.
#[unsafe(no_mangle)]
pub extern "C" fn mpegh_multi_stream_measure(body: &[u8], rows: &mut [u16]) -> u64
    ensures { HostMeasures kind body.now rows.old result rows.new }
{
    multi_stream_body::mpegh_multi_stream_measure(body, rows)
}

// The reserved bits at 0; or 2, or 1.
#[unsafe(no_mangle)]
pub extern "C" fn mpegh_multi_stream_tally(body: &[u8]) -> u64
    ensures { HostTallies kind body.now result }
{
    multi_stream_body::mpegh_multi_stream_tally(body)
}

// The length, and the body at the front of `out`; or a fault, or 10, or 4.
#[unsafe(no_mangle)]
pub extern "C" fn mpegh_multi_stream_write(
    this_stream_id: u8,
    main_present: bool,
    reserved_aux: u8,
    num_auxiliary_streams: u8,
    reserved_groups: u8,
    groups_count: u16,
    trailing_offset: u16,
    trailing_length: u16,
    groups: &[u16],
    store: &[u8],
    out: &mut [u8],
) -> u64
    ensures { HostWrites kind (record { this_stream_id = this_stream_id; main = record { present = main_present; part = record { reserved_aux = reserved_aux; num_auxiliary_streams = num_auxiliary_streams; reserved_groups = reserved_groups; groups = groups_count } }; trailing = span trailing_offset trailing_length }) (groups.now ∷ []) store.now out.old result out.new }
{
    multi_stream_body::mpegh_multi_stream_write(
        this_stream_id,
        main_present,
        reserved_aux,
        num_auxiliary_streams,
        reserved_groups,
        groups_count,
        trailing_offset,
        trailing_length,
        groups,
        store,
        out,
    )
}
