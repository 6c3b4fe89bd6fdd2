// The reserved bits at 0 of DRC instructions that were measured: those of each row that is taken, and of its additional IDs.
ghost use Rattle.std.specs.Prelude.{◌≡◌, ◌≤◌};
ghost use Rattle.wire.specs.Layout.{Family, layouts, tally, family_tally};
ghost use Rattle.instructions.specs.Layout.{additional, instruction, instructions};
ghost use Rattle.instructions.specs.Rows.{instruction_cols};

use super::parsing::{Instruction, instruction_at};
use super::rows::DrcInstructions;
use pairs::parsing::Pair;
use scopes::tallying::scope_zeros;
use target_loudness::tallying::target_zeros;
use wire::bits::idle_bits;
use wire::list::{Tally, Zeros, rows_zeros};

// Of its own fields.
fn own_zeros(d: DrcInstructions) -> u32
    ensures { (result ≡ tally (layouts instruction) (instruction_cols d)) × (result ≤ 19) }
{
    let head = scope_zeros(d.reserved_type, d.scope) + idle_bits(d.reserved_set, 2);
    let ids = idle_bits(d.reserved_downmix, 1) + idle_bits(d.reserved_additional, 3);
    head + (ids + target_zeros(d.target_loudness))
}

// With those of its additional IDs.
impl Tally for Instruction {
    ghost Read = { Family };

    ghost reads = { λ _. instructions };

    ghost may = { λ _ _. Unit {0} };

    ghost zeros = { λ _ x. family_tally instruction additional x };

    ghost most = { 26 };

    fn zeros(&self, body: &[u8], at: usize) -> Zeros {
        let p = instruction_at(body, at, 0);
        let count = p.instruction.additional_downmix_ids.count as usize;
        let below = rows_zeros(&Pair, body, p.begins, count).zeros;
        Zeros {
            zeros: own_zeros(p.instruction) + below,
            next: p.next,
        }
    }
}
