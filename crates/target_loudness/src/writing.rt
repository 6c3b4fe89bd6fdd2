// Writing a target loudness: its bytes as numbers, its part of the check pass with the quick test, and of the fill pass. How far a pen may be is asked as in `wire::pen`.
ghost use Rattle.std.specs.Prelude.{◌≡◌, true, ◌<◌, ◌≤◌, ◌^◌, eqb};
ghost use Rattle.wire.specs.Act.{pick};
ghost use Rattle.wire.specs.Pen.{reach, Checked, Ready, Filled};
ghost use Rattle.wire.specs.Spell.{Spelt, fields_of};
ghost use Rattle.target_loudness.specs.Rows.{target_cols, upper_cells, lower_cells, depends_cells};
ghost use Rattle.target_loudness.specs.Write.{flags_of, target_fits, target_long, target_part};

use super::rows::DrcTargetLoudness;
use wire::bits::is_flag;
use wire::pen::Pen;
use wire::spell::{Joined, check_all, fill_all, fits_all, two};

// ---- the bytes

fn upper_bytes(t: DrcTargetLoudness) -> [u32; 1]
    ensures { Spelt (fields_of (target_cols t) upper_cells) result }
{
    let a = Joined::none().field(t.reserved_upper, 1);
    [a.field(t.upper, 6).field(t.lower.present, 1).spelt()]
}

fn lower_bytes(t: DrcTargetLoudness) -> [u32; 1]
    ensures { Spelt (fields_of (target_cols t) lower_cells) result }
{
    [two(t.lower.reserved, 2, t.lower.value, 6)]
}

fn depends_bytes(t: DrcTargetLoudness) -> [u32; 1]
    ensures { Spelt (fields_of (target_cols t) depends_cells) result }
{
    let a = Joined::none().field(t.reserved_depends, 1);
    let b = a.field(t.depends_on_drc_set.0, 6);
    [b.field(t.no_independent_use_or_reserved, 1).spelt()]
}

// ---- the check pass

// Of a lower value in a target loudness that is not there no flag counts.
pub fn flags_hold(t: DrcTargetLoudness) -> bool
    ensures { result ≡ flags_of (target_cols t) }
{
    if t.present == 1 {
        is_flag(t.lower.present)
    } else {
        is_flag(t.present)
    }
}

// Each byte, if it is there.
pub fn check_target(p: Pen, t: DrcTargetLoudness) -> Pen
    requires { reach p < 2 ^ 31 }
    ensures { Checked (target_part (target_cols t)) 3 p result }
{
    if t.present == 1 {
        let p1 = check_all(p, true, &upper_bytes(t));
        let p2 = check_all(p1, t.lower.present == 1, &lower_bytes(t));
        check_all(p2, true, &depends_bytes(t))
    } else {
        p
    }
}

// Whether all its fields fit, if it is there.
pub fn target_fits(t: DrcTargetLoudness) -> bool
    ensures { result ≡ pick (eqb t.present 1) (target_fits (target_cols t)) true }
{
    if t.present == 1 {
        let own = fits_all(&upper_bytes(t)) & fits_all(&depends_bytes(t));
        if t.lower.present == 1 {
            fits_all(&lower_bytes(t)) & own
        } else {
            own
        }
    } else {
        true
    }
}

// The bytes of one whose fields fit.
pub fn target_long(t: DrcTargetLoudness) -> usize
    requires { pick (eqb t.present 1) (target_fits (target_cols t)) true ≡ true }
    ensures { (result ≡ target_long (target_cols t)) × (result ≤ 3) }
{
    if t.present == 1 {
        2 + (t.lower.present as usize)
    } else {
        0
    }
}

// ---- the fill pass

pub fn fill_target(t: DrcTargetLoudness, out: &mut [u8], n: usize) -> usize
    requires { Ready (target_part (target_cols t)) n out.old }
    ensures { Filled (target_part (target_cols t)) n out.old result out.new }
{
    if t.present == 1 {
        let n1 = fill_all(out, n, true, &upper_bytes(t));
        let n2 = fill_all(out, n1, t.lower.present == 1, &lower_bytes(t));
        fill_all(out, n2, true, &depends_bytes(t))
    } else {
        n
    }
}
