// Calls each constructor that the Rust has, and prints a line a call: the Rust's name of it, and the value's columns by document 01. The gate
// compares the lines with those of oracle/constructors, which calls the Rust's own.
#![tactic(auto)]

mod base_lines;
mod drc_loudness_lines;
mod lists;
mod multi_stream_lines;
mod scene_lines;
mod show;
mod text_label_lines;

use std::io;

fn main(rt: HostRuntime) -> io::Result<()> {
    let out = rt.stdout();
    base_lines::print(out)?;
    scene_lines::print(out)?;
    text_label_lines::print(out)?;
    multi_stream_lines::print(out)?;
    drc_loudness_lines::print(out)
}
