// Values that are written: the top record and the tables as they stand.
use cases::list::{Kind, State};
use cases::tables;
use cases::tables::{Columns, column, part};
use mpegh_c::{base_body, drc_loudness_body, multi_stream_body, scene_body, text_label_body};

fn byte(columns: &Columns, i: usize) -> u8 {
    tables::low_byte(column(columns, i) as usize)
}

fn flag(columns: &Columns, i: usize) -> bool {
    column(columns, i) != 0
}

fn write_base(columns: &Columns, store: &[u8], out: &mut [u8]) -> u64 {
    base_body::mpegh_base_write(
        byte(columns, 0),
        flag(columns, 1),
        flag(columns, 2),
        column(columns, 3),
        column(columns, 4),
        byte(columns, 5),
        byte(columns, 6),
        byte(columns, 7),
        column(columns, 8),
        column(columns, 9),
        store,
        out,
    )
}

fn write_scene(s: State, columns: &Columns, store: &[u8], out: &mut [u8]) -> u64 {
    let n = s.lent;
    scene_body::mpegh_scene_write(
        byte(columns, 0),
        byte(columns, 1),
        flag(columns, 2),
        column(columns, 3),
        byte(columns, 4),
        flag(columns, 5),
        column(columns, 6),
        byte(columns, 7),
        flag(columns, 8),
        column(columns, 9),
        byte(columns, 10),
        column(columns, 11),
        column(columns, 12),
        part(columns, 1, n[1]),
        part(columns, 2, n[2]),
        part(columns, 3, n[3]),
        part(columns, 4, n[4]),
        part(columns, 5, n[5]),
        store,
        out,
    )
}

fn write_text_label(s: State, columns: &Columns, store: &[u8], out: &mut [u8]) -> u64 {
    let n = s.lent;
    text_label_body::mpegh_text_label_write(
        byte(columns, 0),
        byte(columns, 1),
        column(columns, 2),
        column(columns, 3),
        column(columns, 4),
        part(columns, 1, n[1]),
        part(columns, 2, n[2]),
        store,
        out,
    )
}

fn write_multi_stream(s: State, columns: &Columns, store: &[u8], out: &mut [u8]) -> u64 {
    let n = s.lent;
    multi_stream_body::mpegh_multi_stream_write(
        byte(columns, 0),
        flag(columns, 1),
        byte(columns, 2),
        byte(columns, 3),
        byte(columns, 4),
        column(columns, 5),
        column(columns, 6),
        column(columns, 7),
        part(columns, 1, n[1]),
        store,
        out,
    )
}

fn write_drc_loudness(s: State, columns: &Columns, store: &[u8], out: &mut [u8]) -> u64 {
    let n = s.lent;
    drc_loudness_body::mpegh_drc_loudness_write(
        byte(columns, 0),
        flag(columns, 1),
        byte(columns, 2),
        byte(columns, 3),
        byte(columns, 4),
        column(columns, 5),
        column(columns, 6),
        column(columns, 7),
        column(columns, 8),
        column(columns, 9),
        part(columns, 1, n[1]),
        part(columns, 2, n[2]),
        part(columns, 3, n[3]),
        part(columns, 4, n[4]),
        store,
        out,
    )
}

pub fn write(s: State, columns: &Columns, store: &[u8], out: &mut [u8]) -> u64 {
    match s.kind {
        Kind::Base => write_base(columns, store, out),
        Kind::Scene => write_scene(s, columns, store, out),
        Kind::TextLabel => write_text_label(s, columns, store, out),
        Kind::MultiStream => write_multi_stream(s, columns, store, out),
        Kind::DrcLoudness | Kind::Other => write_drc_loudness(s, columns, store, out),
    }
}
