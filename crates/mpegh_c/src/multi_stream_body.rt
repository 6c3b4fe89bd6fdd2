// The multi_stream body (kind 4) for hosts: numbers and slices in, one number out. The names are exported and each kind lends other tables, so the five modules stay apart. C has no Option: a flag stands beside what it tells of.
ghost use Rattle.std.specs.Prelude.{◌≡◌, [], ◌∷◌};
ghost use Rattle.wire.specs.Prog.{span};
ghost use Rattle.multi_stream.specs.Rows.{top_columns, top_row};
ghost use Rattle.multi_stream.specs.Kind.{kind};
ghost use Rattle.mpegh_c.specs.Host.{HostReads, HostMeasures, HostTallies, HostWrites};

use super::codes;
use multi_stream::rows::{MainStream, MpegH3dAudioMultiStream, MultiStreamMain, TOP_COLUMNS};
use wire::rows::{Payload, put_row};

// 0, the record's columns at the front of `top` and the groups in table 8; or 2, or 1, or 3.
pub fn mpegh_multi_stream_read(body: &[u8], top: &mut [u16], groups: &mut [u16]) -> u64
    ensures { HostReads kind top_columns top_row body.now top.old (groups.old ∷ []) result top.new (groups.new ∷ []) }
{
    if top.len() < TOP_COLUMNS {
        return codes::unread(multi_stream::measure(body));
    }
    match multi_stream::read(body, groups) {
        Ok(m) => {
            put_row(top, 0, &m.columns());
            0
        }
        Err(x) => codes::refusal_code(x),
    }
}

// k, and the rows of table 8 at the front of `rows`; or 2, or 1, or 3.
pub fn mpegh_multi_stream_measure(body: &[u8], rows: &mut [u16]) -> u64
    ensures { HostMeasures kind body.now rows.old result rows.new }
{
    match multi_stream::measure(body) {
        Ok(s) => {
            if rows.len() < 1 {
                return codes::room_code(0, 1);
            }
            put_row(rows, 0, &[s.groups]);
            codes::code(0, s.k)
        }
        Err(x) => codes::refusal_code(x),
    }
}

// The reserved bits at 0; or 2, or 1.
pub fn mpegh_multi_stream_tally(body: &[u8]) -> u64
    ensures { HostTallies kind body.now result }
{
    codes::tallied_code(multi_stream::tally(body))
}

// The length, and the body at the front of `out`; or a fault, or 10, or 4.
pub fn mpegh_multi_stream_write(
    this_stream_id: u8,
    main_present: bool,
    reserved_aux: u8,
    num_auxiliary_streams: u8,
    reserved_groups: u8,
    groups_count: u16,
    trailing_offset: u16,
    trailing_length: u16,
    groups: &[u16],
    store: &[u8],
    out: &mut [u8],
) -> u64
    ensures { HostWrites kind (record { this_stream_id = this_stream_id; main = record { present = main_present; part = record { reserved_aux = reserved_aux; num_auxiliary_streams = num_auxiliary_streams; reserved_groups = reserved_groups; groups = groups_count } }; trailing = span trailing_offset trailing_length }) (groups.now ∷ []) store.now out.old result out.new }
{
    let m = MpegH3dAudioMultiStream {
        this_stream_id,
        main: MainStream {
            present: main_present,
            part: MultiStreamMain {
                reserved_aux,
                num_auxiliary_streams,
                reserved_groups,
                groups: groups_count,
            },
        },
        trailing: Payload {
            offset: trailing_offset,
            length: trailing_length,
        },
    };
    codes::written_code(multi_stream::write(m, groups, store, out))
}
