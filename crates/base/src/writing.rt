// Writing the base body in two passes, each in the Rust's order: the check pass names the first fault or the length, the fill pass stores the bytes.
ghost use Rattle.std.specs.Prelude.{◌≡◌, true, [], ◌<◌, ◌^◌};
ghost use Rattle.wire.specs.Pen.{reach, Checked, Ready, Filled};
ghost use Rattle.wire.specs.Pen.{At};
ghost use Rattle.frame.specs.Entry.{all_acts};
ghost use Rattle.wire.specs.Spell.{Spells, Spelt};
ghost use Rattle.base.specs.Kind.{kind};
ghost use Rattle.base.specs.Write.{flags_byte, head_fields, inside, listed, sets_acts, base_acts, CheckedSets};

use super::rows::{CompatibleSets, MpegH3dAudio};
use wire::bits::{fits, flag, wide};
use wire::pen;
use wire::pen::{Fault, Pen, Stopped};
use wire::rows::in_store;
use wire::spell::{Joined, check_all, fill_all, one, two};

// ---- the bytes of the top record

fn flags_byte(m: MpegH3dAudio) -> u32
    ensures { Spells (flags_byte m) result }
{
    let sets = m.compatible_sets;
    Joined::none()
        .field(flag(m.interactivity_enabled), 1)
        .field(flag(!sets.present), 1)
        .field(wide(m.reserved_flags), 6)
        .spelt()
}

pub fn head_bytes(m: MpegH3dAudio) -> [u32; 3]
    ensures { Spelt (head_fields m) result }
{
    [
        one(wide(m.profile_level_indication)),
        flags_byte(m),
        two(
            wide(m.reserved_layout),
            2,
            wide(m.reference_channel_layout),
            6,
        ),
    ]
}

// ---- the check pass

// Whether the sets, if there are any, stand in the store.
fn sets_inside(sets: CompatibleSets, store: &[u8]) -> bool
    ensures { result ≡ inside sets store.now }
{
    if sets.present {
        let indications = sets.indications;
        in_store(indications, store)
    } else {
        true
    }
}

fn check_sets(p: Pen, sets: CompatibleSets) -> Pen
    requires { reach p < 2 ^ 16 }
    ensures { CheckedSets sets p result }
{
    if sets.present {
        let count = sets.indications.length;
        let p1 = pen::byte(p, fits(count, 8));
        pen::run(p1, count as usize)
    } else {
        p
    }
}

// All but the trailing run; the range of the sets first, at its start.
fn check_fields(m: MpegH3dAudio, store: &[u8]) -> Pen
    ensures { Checked (base_acts m store.now) 65539 (At 0) result }
{
    let sets = m.compatible_sets;
    if sets_inside(sets, store) {
        let p = check_all(Ok(0), true, &head_bytes(m));
        check_sets(p, sets)
    } else {
        Err(Stopped(Fault::Range, 0))
    }
}

// The whole: its first fault, or its length.
pub fn check(m: MpegH3dAudio, store: &[u8]) -> Pen
    ensures { Checked (all_acts kind m [] store.now) 131074 (At 0) result }
{
    let trailing = m.trailing;
    if in_store(trailing, store) {
        let count = trailing.length;
        pen::run(check_fields(m, store), count as usize)
    } else {
        Err(Stopped(Fault::Range, 0))
    }
}

// ---- the fill pass

fn fill_sets(sets: CompatibleSets, store: &[u8], out: &mut [u8], n: usize) -> usize
    requires { (inside sets store.now ≡ true) × Ready (sets_acts sets (listed sets store.now)) n out.old }
    ensures { Filled (sets_acts sets (listed sets store.now)) n out.old result out.new }
{
    if sets.present {
        let from = sets.indications.offset;
        let count = sets.indications.length;
        let n1 = pen::put(out, n, count);
        pen::copy(out, n1, store, from as usize, count as usize)
    } else {
        n
    }
}

// All but the trailing run.
fn fill_fields(m: MpegH3dAudio, store: &[u8], out: &mut [u8]) -> usize
    requires { Ready (base_acts m store.now) 0 out.old }
    ensures { Filled (base_acts m store.now) 0 out.old result out.new }
{
    let n = fill_all(out, 0, true, &head_bytes(m));
    fill_sets(m.compatible_sets, store, out, n)
}

pub fn fill(m: MpegH3dAudio, store: &[u8], out: &mut [u8]) -> usize
    requires { Ready (all_acts kind m [] store.now) 0 out.old }
    ensures { Filled (all_acts kind m [] store.now) 0 out.old result out.new }
{
    let from = m.trailing.offset;
    let count = m.trailing.length;
    let n = fill_fields(m, store, out);
    pen::copy(out, n, store, from as usize, count as usize)
}
