// Writing the DRC and loudness body in two passes, each in the Rust's order: the check pass names the first fault or the length, the fill pass stores the bytes.
ghost use Rattle.std.specs.Prelude.{◌≡◌, true, [], ◌∷◌, ◌<◌, ◌^◌};
ghost use Rattle.wire.specs.Pen.{reach, Checked, Ready, Filled, At};
ghost use Rattle.wire.specs.Spell.{Spelt};
ghost use Rattle.frame.specs.Entry.{all_acts};
ghost use Rattle.drc_kind.specs.Kind.{kind};
ghost use Rattle.drc_writing.specs.Write.{lent, store_of, head_fields, count_fields, all_within, lists_acts, info_acts, drc_acts, Listed};

use downmixes::rows::DOWNMIX_COLUMNS;
use downmixes::writing::Downmixes;
use drc_kind::rows::{DrcLoudnessInfo, Info, MpegH3dAudioDrcLoudness};
use instruction_writing::writing::Instructions;
use instructions::rows::INSTRUCTION_COLUMNS;
use loudness::rows::ENTRY_COLUMNS;
use loudness::writing::LoudnessEntries;
use wire::bits::{flag, wide};
use wire::pen;
use wire::pen::{Fault, Pen, Stopped};
use wire::rows::{has_rows, in_store};
use wire::spell::{check_all, fill_all, two};
use wire::written::{check_rows, fill_rows};

// The rows of the three lists: tables 9 to 12, and the store.
#[derive(Clone, Copy)]
pub struct Lists<'a> {
    pub instructions: Instructions<'a>,
    pub entries: LoudnessEntries<'a>,
    pub downmixes: Downmixes<'a>,
}

// ---- the bytes of the top record

pub fn head_bytes(m: MpegH3dAudioDrcLoudness) -> [u32; 1]
    ensures { Spelt (head_fields m) result }
{
    [two(wide(m.reserved), 7, flag(m.info.present), 1)]
}

fn count_bytes(i: DrcLoudnessInfo) -> [u32; 3]
    ensures { Spelt (count_fields i) result }
{
    [
        two(wide(i.reserved_drc), 2, i.drc_instructions, 6),
        two(wide(i.reserved_loudness), 2, i.loudness_infos, 6),
        two(wide(i.reserved_downmix), 3, i.downmix_definitions, 5),
    ]
}

// Whether the rows of the three lists stand in their tables.
fn all_within(i: Info, lists: &Lists) -> bool
    ensures { result ≡ all_within i lists.now.instructions.instructions.now lists.now.entries.entries.now lists.now.downmixes.downmixes.now }
{
    if i.present {
        let part = i.part;
        let a = has_rows(
            lists.instructions.instructions,
            INSTRUCTION_COLUMNS,
            part.drc_instructions as usize,
        );
        let b = has_rows(
            lists.entries.entries,
            ENTRY_COLUMNS,
            part.loudness_infos as usize,
        );
        a & (b
            & has_rows(
                lists.downmixes.downmixes,
                DOWNMIX_COLUMNS,
                part.downmix_definitions as usize,
            ))
    } else {
        true
    }
}

// ---- the check pass

// The lists one after the other; nothing is looked at behind a fault.
fn check_lists(n: usize, i: DrcLoudnessInfo, lists: &Lists) -> Pen
    requires { Listed i lists.now.instructions.instructions.now lists.now.entries.entries.now lists.now.downmixes.downmixes.now × (n < 2 ^ 15) }
    ensures { Checked (lists_acts i (lent lists.now) (store_of lists.now)) 17450 (At n) result }
{
    let n1 = check_rows(&lists.instructions, n, 0, i.drc_instructions as usize)?;
    let n2 = check_rows(&lists.entries, n1, 0, i.loudness_infos as usize)?;
    check_rows(&lists.downmixes, n2, 0, i.downmix_definitions as usize)
}

// The counts and the lists, where they are there.
fn check_info(p: Pen, i: Info, lists: &Lists) -> Pen
    requires { (all_within i lists.now.instructions.instructions.now lists.now.entries.entries.now lists.now.downmixes.downmixes.now ≡ true) × (reach p < 2 ^ 8) }
    ensures { Checked (info_acts i (lent lists.now) (store_of lists.now)) 17453 p result }
{
    if i.present {
        let part = i.part;
        let n = check_all(p, true, &count_bytes(part))?;
        check_lists(n, part, lists)
    } else {
        p
    }
}

// The top record and its lists; the ranges of all first, at its start.
fn check_fields(m: MpegH3dAudioDrcLoudness, lists: &Lists) -> Pen
    ensures { Checked (drc_acts m (lent lists.now) (store_of lists.now)) 17454 (At 0) result }
{
    let i = m.info;
    if all_within(i, lists) {
        let p = check_all(Ok(0), true, &head_bytes(m));
        check_info(p, i, lists)
    } else {
        Err(Stopped(Fault::Range, 0))
    }
}

// All of it: the trailing run is a range of the top record, and stands last.
pub fn check(
    m: MpegH3dAudioDrcLoudness,
    instructions: &[u16],
    additional: &[u16],
    loudness: &[u16],
    downmixes: &[u16],
    store: &[u8],
) -> Pen
    ensures { Checked (all_acts kind m (instructions.now ∷ additional.now ∷ loudness.now ∷ downmixes.now ∷ []) store.now) 82989 (At 0) result }
{
    let trailing = m.trailing;
    if in_store(trailing, store) {
        let lists = Lists {
            instructions: Instructions {
                instructions,
                additional,
            },
            entries: LoudnessEntries {
                entries: loudness,
                store,
            },
            downmixes: Downmixes { downmixes },
        };
        pen::payload_run(check_fields(m, &lists), trailing)
    } else {
        Err(Stopped(Fault::Range, 0))
    }
}

// ---- the fill pass

fn fill_lists(i: DrcLoudnessInfo, lists: &Lists, out: &mut [u8], n: usize) -> usize
    requires { Listed i lists.now.instructions.instructions.now lists.now.entries.entries.now lists.now.downmixes.downmixes.now × Ready (lists_acts i (lent lists.now) (store_of lists.now)) n out.old }
    ensures { Filled (lists_acts i (lent lists.now) (store_of lists.now)) n out.old result out.new }
{
    let n1 = fill_rows(&lists.instructions, 0, i.drc_instructions as usize, out, n);
    let n2 = fill_rows(&lists.entries, 0, i.loudness_infos as usize, out, n1);
    fill_rows(&lists.downmixes, 0, i.downmix_definitions as usize, out, n2)
}

fn fill_info(i: Info, lists: &Lists, out: &mut [u8], n: usize) -> usize
    requires { (all_within i lists.now.instructions.instructions.now lists.now.entries.entries.now lists.now.downmixes.downmixes.now ≡ true) × Ready (info_acts i (lent lists.now) (store_of lists.now)) n out.old }
    ensures { Filled (info_acts i (lent lists.now) (store_of lists.now)) n out.old result out.new }
{
    if i.present {
        let part = i.part;
        let n1 = fill_all(out, n, true, &count_bytes(part));
        fill_lists(part, lists, out, n1)
    } else {
        n
    }
}

fn fill_fields(m: MpegH3dAudioDrcLoudness, lists: &Lists, out: &mut [u8]) -> usize
    requires { Ready (drc_acts m (lent lists.now) (store_of lists.now)) 0 out.old }
    ensures { Filled (drc_acts m (lent lists.now) (store_of lists.now)) 0 out.old result out.new }
{
    let n1 = fill_all(out, 0, true, &head_bytes(m));
    let i = m.info;
    fill_info(i, lists, out, n1)
}

pub fn fill(
    m: MpegH3dAudioDrcLoudness,
    instructions: &[u16],
    additional: &[u16],
    loudness: &[u16],
    downmixes: &[u16],
    store: &[u8],
    out: &mut [u8],
) -> usize
    requires { Ready (all_acts kind m (instructions.now ∷ additional.now ∷ loudness.now ∷ downmixes.now ∷ []) store.now) 0 out.old }
    ensures { Filled (all_acts kind m (instructions.now ∷ additional.now ∷ loudness.now ∷ downmixes.now ∷ []) store.now) 0 out.old result out.new }
{
    let lists = Lists {
        instructions: Instructions {
            instructions,
            additional,
        },
        entries: LoudnessEntries {
            entries: loudness,
            store,
        },
        downmixes: Downmixes { downmixes },
    };
    let n = fill_fields(m, &lists, out);
    pen::copy_payload(out, n, store, m.trailing)
}
