// Reading presets: one pass measures, one fills tables 4 and 5 with what was measured and tests nothing. A body and a position stay two arguments, as in `wire::reads`.
ghost use Rattle.std.specs.Prelude.{◌≡◌, ◌+◌, ◌*◌, ◌<◌, ◌≤◌, length};
ghost use mathlib.Core.List.{flatten};
ghost use Rattle.wire.specs.Bits.{part};
ghost use Rattle.wire.specs.Prog.{many};
ghost use Rattle.wire.specs.Layout.{Family, broken_row};
ghost use Rattle.presets.specs.Layout.{preset, presets};
ghost use Rattle.presets.specs.Rows.{preset_from};

use super::rows::{CONDITION_COLUMNS, GroupPreset, PRESET_COLUMNS};
use conditions::parsing::Condition;
use wire::bits::{part, wide};
use wire::ids::GroupPresetId;
use wire::list::{Count, Nest, rows_end, store_rows};
use wire::reads::{Short, head};
use wire::rows::{Range, put_row};

// How many conditions a preset has, by its third byte.
fn count_of(b: u8) -> u16
    ensures { (result ≡ part 0 4 b + 1) × (result ≤ 16) }
{
    part(wide(b), 0, 4) + 1
}

// A row of table 4, as a list of them is measured, stored and tallied.
pub struct Preset;

// The conditions stand behind the three bytes, and nothing behind them.
impl Count for Preset {
    ghost Read = { Family };

    ghost reads = { λ _. presets };

    ghost kids = { λ _ x. length x.1 };

    ghost most = { 16 };

    fn kids(&self, body: &[u8], at: usize) -> Result<(usize, usize), Short> {
        let n = head(body, at, 3)?;
        let count = count_of(body[at + 2]) as usize;
        let next = rows_end(&Condition, body, n, count)?;
        Ok((count, next))
    }
}

// ---- filling: nothing is left to test

// The preset whose three bytes begin here, and whose conditions are rows of table 5 from `first` on.
pub fn preset_from(body: &[u8], at: usize, first: u16) -> GroupPreset
    requires { at + 3 ≤ length body.now }
    ensures { result ≡ preset_from body.now at first }
{
    let id = wide(body[at]);
    let kind = wide(body[at + 1]);
    let conditions = body[at + 2];
    GroupPreset {
        reserved_id: part(id, 5, 3),
        preset_id: GroupPresetId(part(id, 0, 5)),
        reserved_kind: part(kind, 5, 3),
        preset_kind: part(kind, 0, 5),
        reserved_conditions: part(wide(conditions), 4, 4),
        conditions: Range {
            first,
            count: count_of(conditions),
        },
    }
}

impl Nest for Preset {
    ghost Read = { Family };

    ghost reads = { λ _. presets };

    ghost may = { λ _ _. Unit {0} };

    ghost COLUMNS = { 7 };

    ghost KID_COLUMNS = { 13 };

    ghost size = { λ _ x. length x.1 };

    ghost columns = { λ _ n x. broken_row preset (n, x) };

    ghost kids = { λ _ x. flatten x.1 };

    const COLUMNS: usize = PRESET_COLUMNS;

    fn store(
        &self,
        body: &[u8],
        at: usize,
        outer: &mut [u16],
        to: usize,
        inner: &mut [u16],
        first: usize,
    ) -> (usize, usize) {
        let row = preset_from(body, at, first as u16);
        let count = row.conditions.count as usize;
        let column = first * CONDITION_COLUMNS;
        let next = store_rows(&Condition, body, at + 3, count, inner, column);
        put_row(outer, to, &row.columns());
        (next, first + count)
    }
}
