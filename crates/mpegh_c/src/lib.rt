// The library for C and Rust hosts: each entry point of each kind on numbers and slices, its answer one number (include/mpegh.h).
#![tactic(auto)]

pub mod base_body;
pub mod codes;
pub mod drc_loudness_body;
pub mod multi_stream_body;
pub mod scene_body;
pub mod text_label_body;
