// The exports of the library for hosts, built as an archive: each calls its namesake of `mpegh_c` and states its clauses again (include/mpegh.h).
#![tactic(auto)]

mod base_body;
mod drc_loudness_body;
mod multi_stream_body;
mod scene_body;
mod text_label_body;
