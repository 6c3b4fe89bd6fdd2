// Bodies that are read, measured and tallied. What is lent is in arrays of its own during a call: no two parts of one array can be lent at once.
use cases::list::{Kind, State};
use cases::tables;
use cases::tables::{Columns, copy_columns, front_mut};
use mpegh_c::{base_body, drc_loudness_body, multi_stream_body, scene_body, text_label_body};

// What the three entry points answer, and a digest of the lent memory afterwards: top record, tables, and what measuring was lent.
#[derive(Clone, Copy, PartialEq, Eq)]
pub struct Answers {
    pub read: u64,
    pub measured: u64,
    pub tallied: u64,
    pub digest: u64,
}

fn read_base(s: State, body: &[u8], columns: &mut Columns) -> u64 {
    let n = s.lent;
    let mut top = [43981u16; 32];
    let answer = base_body::mpegh_base_read(body, front_mut(&mut top, n[0]));
    copy_columns(columns, 0, &top, n[0]);
    answer
}

fn read_scene(s: State, body: &[u8], columns: &mut Columns) -> u64 {
    let n = s.lent;
    let mut top = [43981u16; 32];
    let mut groups = [43981u16; 4096];
    let mut switch_groups = [43981u16; 512];
    let mut members = [43981u16; 2048];
    let mut presets = [43981u16; 512];
    let mut conditions = [43981u16; 8192];
    let answer = scene_body::mpegh_scene_read(
        body,
        front_mut(&mut top, n[0]),
        front_mut(&mut groups, n[1]),
        front_mut(&mut switch_groups, n[2]),
        front_mut(&mut members, n[3]),
        front_mut(&mut presets, n[4]),
        front_mut(&mut conditions, n[5]),
    );
    copy_columns(columns, 0, &top, n[0]);
    copy_columns(columns, 1, &groups, n[1]);
    copy_columns(columns, 2, &switch_groups, n[2]);
    copy_columns(columns, 3, &members, n[3]);
    copy_columns(columns, 4, &presets, n[4]);
    copy_columns(columns, 5, &conditions, n[5]);
    answer
}

fn read_text_label(s: State, body: &[u8], columns: &mut Columns) -> u64 {
    let n = s.lent;
    let mut top = [43981u16; 32];
    let mut languages = [43981u16; 1024];
    let mut entries = [43981u16; 12288];
    let answer = text_label_body::mpegh_text_label_read(
        body,
        front_mut(&mut top, n[0]),
        front_mut(&mut languages, n[1]),
        front_mut(&mut entries, n[2]),
    );
    copy_columns(columns, 0, &top, n[0]);
    copy_columns(columns, 1, &languages, n[1]);
    copy_columns(columns, 2, &entries, n[2]);
    answer
}

fn read_multi_stream(s: State, body: &[u8], columns: &mut Columns) -> u64 {
    let n = s.lent;
    let mut top = [43981u16; 32];
    let mut groups = [43981u16; 1024];
    let answer = multi_stream_body::mpegh_multi_stream_read(
        body,
        front_mut(&mut top, n[0]),
        front_mut(&mut groups, n[1]),
    );
    copy_columns(columns, 0, &top, n[0]);
    copy_columns(columns, 1, &groups, n[1]);
    answer
}

fn read_drc_loudness(s: State, body: &[u8], columns: &mut Columns) -> u64 {
    let n = s.lent;
    let mut top = [43981u16; 32];
    let mut instructions = [43981u16; 2048];
    let mut additional = [43981u16; 1024];
    let mut loudness = [43981u16; 512];
    let mut downmixes = [43981u16; 256];
    let answer = drc_loudness_body::mpegh_drc_loudness_read(
        body,
        front_mut(&mut top, n[0]),
        front_mut(&mut instructions, n[1]),
        front_mut(&mut additional, n[2]),
        front_mut(&mut loudness, n[3]),
        front_mut(&mut downmixes, n[4]),
    );
    copy_columns(columns, 0, &top, n[0]);
    copy_columns(columns, 1, &instructions, n[1]);
    copy_columns(columns, 2, &additional, n[2]);
    copy_columns(columns, 3, &loudness, n[3]);
    copy_columns(columns, 4, &downmixes, n[4]);
    answer
}

fn read(s: State, body: &[u8], columns: &mut Columns) -> u64 {
    match s.kind {
        Kind::Base => read_base(s, body, columns),
        Kind::Scene => read_scene(s, body, columns),
        Kind::TextLabel => read_text_label(s, body, columns),
        Kind::MultiStream => read_multi_stream(s, body, columns),
        Kind::DrcLoudness | Kind::Other => read_drc_loudness(s, body, columns),
    }
}

fn measure_into(kind: Kind, body: &[u8], rows: &mut [u16]) -> u64 {
    match kind {
        Kind::Base => base_body::mpegh_base_measure(body, rows),
        Kind::Scene => scene_body::mpegh_scene_measure(body, rows),
        Kind::TextLabel => text_label_body::mpegh_text_label_measure(body, rows),
        Kind::MultiStream => multi_stream_body::mpegh_multi_stream_measure(body, rows),
        Kind::DrcLoudness | Kind::Other => drc_loudness_body::mpegh_drc_loudness_measure(
            body, rows,
        ),
    }
}

fn measure(kind: Kind, body: &[u8], columns: &mut Columns) -> u64 {
    let n = tables::rows_lent(kind);
    let mut rows = [43981u16; 8];
    let answer = measure_into(kind, body, front_mut(&mut rows, n));
    copy_columns(columns, 6, &rows, n);
    answer
}

fn tally(kind: Kind, body: &[u8]) -> u64 {
    match kind {
        Kind::Base => base_body::mpegh_base_tally(body),
        Kind::Scene => scene_body::mpegh_scene_tally(body),
        Kind::TextLabel => text_label_body::mpegh_text_label_tally(body),
        Kind::MultiStream => multi_stream_body::mpegh_multi_stream_tally(body),
        Kind::DrcLoudness | Kind::Other => drc_loudness_body::mpegh_drc_loudness_tally(body),
    }
}

// All lent columns are set to a pattern before.
pub fn ask(s: State, body: &[u8], columns: &mut Columns) -> Answers {
    tables::fill_columns(s, columns);
    let read = read(s, body, columns);
    let measured = measure(s.kind, body, columns);
    Answers {
        read,
        measured,
        tallied: tally(s.kind, body),
        digest: tables::digest(s, columns),
    }
}
