// The base body.
use super::lists::bytes;
use super::show;
use base::rows::{CompatibleSets, MpegH3dAudio};
use std::io;
use std::io::Stdout;

fn base(out: Stdout, m: MpegH3dAudio) -> io::Result<()> {
    show::line(out, b"MpegH3dAudio::new", &m.columns())
}

pub fn print(out: Stdout) -> io::Result<()> {
    let sets = CompatibleSets::listed(bytes(4));
    let empty = CompatibleSets::listed(bytes(0));
    base(
        out,
        MpegH3dAudio::new(11, true, CompatibleSets::absent(), 12),
    )?;
    base(out, MpegH3dAudio::new(13, false, sets, 14))?;
    base(out, MpegH3dAudio::new(201, true, empty, 202))
}
