// Reading groups: one pass measures, one takes what was measured and tests nothing. A body and a position stay two arguments, as in `wire::reads`.
ghost use Rattle.std.specs.Prelude.{ℕ, List, ◌≡◌, true, ◌+◌, ◌*◌, ◌≤◌, length};
ghost use mathlib.Core.List.{flat_map};
ghost use Rattle.std.proofs.lemmas.List.Edits.{sets};
ghost use Rattle.wire.specs.Prog.{done, run, many};
ghost use Rattle.wire.specs.Reads.{end_of, is_done, rows_of, ends_out};
ghost use Rattle.wire.specs.Layout.{flat};
ghost use Rattle.stream_groups.specs.Layout.{group};
ghost use Rattle.stream_groups.specs.Rows.{group_row};

use super::rows::{AuxiliaryLocation, GROUP_COLUMNS, MultiStreamGroup};
use wire::bits::{part, wide};
use wire::ids::GroupId;
use wire::list::{Measure, Store, rows_end};
use wire::reads::{Short, byte_at, head};
use wire::rows::put_row;

// A row of table 8, as a list of them is measured and stored.
pub struct Group;

// ---- measured

// An auxiliary byte follows exactly if isInMainStream is 0.
impl Measure for Group {
    ghost Read = { List ℕ };

    ghost reads = { λ _. flat 5 group };

    fn end(&self, body: &[u8], at: usize) -> Result<usize, Short> {
        let (e, next) = byte_at(body, at)?;
        if part(e, 0, 1) == 0 {
            return head(body, next, 1);
        }
        Ok(next)
    }
}

// How far groups were passed: the next position, and the groups that are left.
#[derive(Clone, Copy, PartialEq, Eq)]
struct Reached {
    pos: usize,
    left: usize,
}

// Passes groups as long as the body has a byte for each that is left: a first byte then needs no test, and an auxiliary byte takes one of those to spare.
// A whole body has them all; of another, what is left is for the caller to test.
fn quick_groups(body: &[u8], at: usize, count: usize) -> Reached
    requires { at + count ≤ length body.now }
    ensures { (end_of (run (many result.left (flat 5 group)) body.now result.pos) ≡ end_of (run (many count (flat 5 group)) body.now at)) × (result.pos ≤ length body.now) }
{
    let mut spare = body.len() - at - count;
    let mut pos = at;
    for i in 0..count {
        if part(wide(body[pos]), 0, 1) == 0 {
            if spare == 0 {
                return Reached {
                    pos,
                    left: count - i,
                };
            }
            spare -= 1;
            pos += 1;
        }
        pos += 1;
    }
    Reached { pos, left: 0 }
}

// Where `count` groups end; each byte is tested where the quick pass is not sure.
pub fn measure_groups(body: &[u8], at: usize, count: usize) -> Result<usize, Short>
    requires { at ≤ length body.now }
    ensures { ends_out result ≡ end_of (run (many count (flat 5 group)) body.now at) }
{
    if count <= body.len() - at {
        let r = quick_groups(body, at, count);
        rows_end(&Group, body, r.pos, r.left)
    } else {
        rows_end(&Group, body, at, count)
    }
}

// ---- taken, once measured

// A group, and the next position.
#[derive(Clone, Copy, PartialEq, Eq)]
struct Placed {
    group: MultiStreamGroup,
    next: usize,
}

// A group that was measured: nothing is left to test.
fn group_at(body: &[u8], at: usize) -> Placed
    requires { (at ≤ length body.now) × (is_done (run (flat 5 group) body.now at) ≡ true) }
    ensures { done (group_row result.group) result.next ≡ run (flat 5 group) body.now at }
{
    let e = wide(body[at]);
    let id = GroupId(part(e, 1, 7));
    if part(e, 0, 1) == 1 {
        return Placed {
            group: MultiStreamGroup::in_main_stream(id),
            next: at + 1,
        };
    }
    let x = wide(body[at + 1]);
    let location = AuxiliaryLocation {
        is_in_ts: part(x, 7, 1),
        auxiliary_stream_id: part(x, 0, 7),
    };
    Placed {
        group: MultiStreamGroup::in_auxiliary_stream(id, location),
        next: at + 2,
    }
}

impl Store for Group {
    ghost Read = { List ℕ };

    ghost reads = { λ _. flat 5 group };

    ghost may = { λ _ _. Unit {0} };

    ghost COLUMNS = { 5 };

    ghost columns = { λ _ r. r };

    const COLUMNS: usize = GROUP_COLUMNS;

    fn store(&self, body: &[u8], at: usize, table: &mut [u16], to: usize) -> usize {
        let p = group_at(body, at);
        put_row(table, to, &p.group.columns());
        p.next
    }
}
