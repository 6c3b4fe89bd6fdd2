// Reading a target loudness: where it ends, and what it is once it was measured. A body and a position stay two arguments, as in `wire::reads`.
ghost use Rattle.std.specs.Prelude.{◌≡◌, ◌+◌, ◌≤◌, length, get_or, eqb};
ghost use Rattle.wire.specs.Act.{pick};
ghost use Rattle.wire.specs.Reads.{ends_out};
ghost use Rattle.wire.specs.Straight.{PartEnds, PartTaken, blanks};
ghost use Rattle.target_loudness.specs.Layout.{lower, target};
ghost use Rattle.target_loudness.specs.Rows.{lower_row, target_row, target_bytes};

use super::rows::{DrcTargetLoudness, TargetLoudnessLower};
use wire::bits::{part, wide};
use wire::ids::DrcSetId;
use wire::reads::{Short, head};

// Where a target loudness ends that begins here if its flag is 1.
pub fn target_end(body: &[u8], at: usize, present: u16) -> Result<usize, Short>
    requires { (at ≤ length body.now) × (present ≤ 1) }
    ensures { PartEnds 15 target present body.now at (ends_out result) }
{
    if present == 1 {
        let n = head(body, at, 1)?;
        head(body, n, (part(wide(body[at]), 0, 1) + 1) as usize)
    } else {
        Ok(at)
    }
}

// The bytes of a target loudness that begins here if its flag is 1.
pub fn target_size(body: &[u8], at: usize, present: u16) -> usize
    requires { at + present ≤ length body.now }
    ensures { (result ≡ pick (eqb present 1) (target_bytes (get_or body.now at 0)) 0) × (result ≤ 3) }
{
    if present == 1 {
        2 + (part(wide(body[at]), 0, 1) as usize)
    } else {
        0
    }
}

// ---- taken, once measured

// The lower value that begins here, if its flag is 1.
fn lower_at(body: &[u8], at: usize, present: u16) -> TargetLoudnessLower
    requires { (at + present ≤ length body.now) × (present ≤ 1) }
    ensures { PartTaken 18 3 lower present (blanks 2) body.now at (lower_row result) }
{
    if present == 1 {
        let b = wide(body[at]);
        TargetLoudnessLower {
            present: 1,
            reserved: part(b, 6, 2),
            value: part(b, 0, 6),
        }
    } else {
        TargetLoudnessLower::absent()
    }
}

// The target loudness that begins here and is there.
fn target_from(body: &[u8], at: usize) -> DrcTargetLoudness
    requires { at + target_bytes (get_or body.now at 0) ≤ length body.now }
    ensures { PartTaken 15 9 target 1 (blanks 8) body.now at (target_row result) }
{
    let u = wide(body[at]);
    let l = part(u, 0, 1);
    let depends = wide(body[at + 1 + (l as usize)]);
    DrcTargetLoudness {
        present: 1,
        reserved_upper: part(u, 7, 1),
        upper: part(u, 1, 6),
        lower: lower_at(body, at + 1, l),
        reserved_depends: part(depends, 7, 1),
        depends_on_drc_set: DrcSetId(part(depends, 1, 6)),
        no_independent_use_or_reserved: part(depends, 0, 1),
    }
}

// The target loudness that begins here, if its flag is 1.
pub fn target_at(body: &[u8], at: usize, present: u16) -> DrcTargetLoudness
    requires { (at + pick (eqb present 1) (target_bytes (get_or body.now at 0)) 0 ≤ length body.now) × (present ≤ 1) }
    ensures { PartTaken 15 9 target present (blanks 8) body.now at (target_row result) }
{
    if present == 1 {
        target_from(body, at)
    } else {
        DrcTargetLoudness::absent()
    }
}
