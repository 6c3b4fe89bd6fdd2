// The multi_stream body: its top record, the main-stream part and the groups.
use super::show;
use multi_stream::rows::{
    AuxiliaryLocation, MainStream, MpegH3dAudioMultiStream, MultiStreamGroup, MultiStreamMain,
};
use std::io;
use std::io::Stdout;
use wire::bits::wide;
use wire::ids::GroupId;

fn top(out: Stdout, m: MpegH3dAudioMultiStream) -> io::Result<()> {
    show::line(out, b"MpegH3dAudioMultiStream::new", &m.columns())
}

fn main_stream(out: Stdout, m: MultiStreamMain) -> io::Result<()> {
    let columns = [
        wide(m.reserved_aux),
        wide(m.num_auxiliary_streams),
        wide(m.reserved_groups),
        m.groups,
    ];
    show::line(out, b"MultiStreamMain::new", &columns)
}

fn location(out: Stdout, a: AuxiliaryLocation) -> io::Result<()> {
    let columns = [a.is_in_ts, a.auxiliary_stream_id];
    show::line(out, b"AuxiliaryLocation::new", &columns)
}

fn in_main_stream(out: Stdout, g: MultiStreamGroup) -> io::Result<()> {
    show::line(out, b"MultiStreamGroup::in_main_stream", &g.columns())
}

fn in_auxiliary_stream(out: Stdout, g: MultiStreamGroup) -> io::Result<()> {
    show::line(out, b"MultiStreamGroup::in_auxiliary_stream", &g.columns())
}

pub fn print(out: Stdout) -> io::Result<()> {
    top(out, MpegH3dAudioMultiStream::new(11, MainStream::absent()))?;
    let main = MultiStreamMain::new(12, 4);
    top(out, MpegH3dAudioMultiStream::new(201, MainStream::of(main)))?;
    main_stream(out, MultiStreamMain::new(11, 4))?;
    main_stream(out, MultiStreamMain::new(201, 301))?;
    location(out, AuxiliaryLocation::new(true, 11))?;
    location(out, AuxiliaryLocation::new(false, 201))?;
    in_main_stream(out, MultiStreamGroup::in_main_stream(GroupId(11)))?;
    in_main_stream(out, MultiStreamGroup::in_main_stream(GroupId(201)))?;
    let near = AuxiliaryLocation::new(true, 12);
    let far = AuxiliaryLocation::new(false, 202);
    in_auxiliary_stream(
        out,
        MultiStreamGroup::in_auxiliary_stream(GroupId(11), near),
    )?;
    in_auxiliary_stream(
        out,
        MultiStreamGroup::in_auxiliary_stream(GroupId(201), far),
    )
}
