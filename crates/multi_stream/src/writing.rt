// Writing the multi_stream body in two passes, each in the Rust's order: the check pass names the first fault or the length, the fill pass stores the bytes.
ghost use Rattle.std.specs.Prelude.{◌≡◌, true, [], ◌∷◌, ◌<◌};
ghost use Rattle.wire.specs.Pen.{reach, Checked, Ready, Filled, At};
ghost use Rattle.wire.specs.Spell.{Spelt};
ghost use Rattle.frame.specs.Entry.{all_acts};
ghost use Rattle.multi_stream.specs.Kind.{kind};
ghost use Rattle.multi_stream.specs.Write.{head_fields, main_fields, within, main_acts, multi_stream_acts};

use super::rows::{GROUP_COLUMNS, MainStream, MpegH3dAudioMultiStream, MultiStreamMain};
use stream_groups::writing::Groups;
use wire::bits::{flag, wide};
use wire::pen;
use wire::pen::{Fault, Pen, Stopped};
use wire::rows::{has_rows, in_store};
use wire::spell::{check_all, fill_all, two};
use wire::written::{check_rows, fill_rows};

// ---- the bytes of the top record

pub fn head_bytes(m: MpegH3dAudioMultiStream) -> [u32; 1]
    ensures { Spelt (head_fields m) result }
{
    [two(flag(m.main.present), 1, wide(m.this_stream_id), 7)]
}

fn main_bytes(m: MultiStreamMain) -> [u32; 2]
    ensures { Spelt (main_fields m) result }
{
    [
        two(wide(m.reserved_aux), 1, wide(m.num_auxiliary_streams), 7),
        two(wide(m.reserved_groups), 1, m.groups, 7),
    ]
}

// Whether the groups, if there is a main part, stand in the table.
fn groups_within(main: MainStream, groups: &[u16]) -> bool
    ensures { result ≡ within main groups.now }
{
    if main.present {
        let count = main.part.groups;
        has_rows(groups, GROUP_COLUMNS, count as usize)
    } else {
        true
    }
}

// ---- the check pass

// The main part, if there is one.
fn check_main(p: Pen, main: MainStream, groups: &[u16]) -> Pen
    requires { (within main groups.now ≡ true) × (reach p < 2) }
    ensures { Checked (main_acts main groups.now) 131074 p result }
{
    if main.present {
        let m = main.part;
        let n = check_all(p, true, &main_bytes(m))?;
        let count = m.groups;
        check_rows(&Groups { groups }, n, 0, count as usize)
    } else {
        p
    }
}

// All but the trailing run; the range of the groups first, at its start.
fn check_fields(m: MpegH3dAudioMultiStream, groups: &[u16]) -> Pen
    ensures { Checked (multi_stream_acts m groups.now) 131075 (At 0) result }
{
    let main = m.main;
    if groups_within(main, groups) {
        let p = check_all(Ok(0), true, &head_bytes(m));
        check_main(p, main, groups)
    } else {
        Err(Stopped(Fault::Range, 0))
    }
}

// The whole: its first fault, or its length.
pub fn check(m: MpegH3dAudioMultiStream, groups: &[u16], store: &[u8]) -> Pen
    ensures { Checked (all_acts kind m (groups.now ∷ []) store.now) 196610 (At 0) result }
{
    let trailing = m.trailing;
    if in_store(trailing, store) {
        let count = trailing.length;
        pen::run(check_fields(m, groups), count as usize)
    } else {
        Err(Stopped(Fault::Range, 0))
    }
}

// ---- the fill pass

// The main part, if there is one.
fn fill_main(main: MainStream, groups: &[u16], out: &mut [u8], n: usize) -> usize
    requires { (within main groups.now ≡ true) × Ready (main_acts main groups.now) n out.old }
    ensures { Filled (main_acts main groups.now) n out.old result out.new }
{
    if main.present {
        let m = main.part;
        let n1 = fill_all(out, n, true, &main_bytes(m));
        let count = m.groups;
        fill_rows(&Groups { groups }, 0, count as usize, out, n1)
    } else {
        n
    }
}

// All but the trailing run.
fn fill_fields(m: MpegH3dAudioMultiStream, groups: &[u16], out: &mut [u8]) -> usize
    requires { Ready (multi_stream_acts m groups.now) 0 out.old }
    ensures { Filled (multi_stream_acts m groups.now) 0 out.old result out.new }
{
    let n = fill_all(out, 0, true, &head_bytes(m));
    fill_main(m.main, groups, out, n)
}

pub fn fill(m: MpegH3dAudioMultiStream, groups: &[u16], store: &[u8], out: &mut [u8]) -> usize
    requires { Ready (all_acts kind m (groups.now ∷ []) store.now) 0 out.old }
    ensures { Filled (all_acts kind m (groups.now ∷ []) store.now) 0 out.old result out.new }
{
    let from = m.trailing.offset;
    let count = m.trailing.length;
    let n = fill_fields(m, groups, out);
    pen::copy(out, n, store, from as usize, count as usize)
}
