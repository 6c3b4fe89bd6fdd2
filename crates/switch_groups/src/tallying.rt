// The reserved bits at 0 of switch groups that were measured.
ghost use Rattle.wire.specs.Layout.{Family, family_tally};
ghost use Rattle.switch_groups.specs.Layout.{member, switch_group, switch_group_list};

use super::parsing::{Switch, members_of};
use pairs::tallying::pairs_zeros;
use wire::bits::{idle_bits, part, wide};
use wire::list::{Tally, Zeros};

// Those of its three bytes, and of its members.
impl Tally for Switch {
    ghost Read = { Family };

    ghost reads = { λ _. switch_group_list };

    ghost may = { λ _ _. Unit {0} };

    ghost zeros = { λ _ x. family_tally switch_group member x };

    ghost most = { 37 };

    fn zeros(&self, body: &[u8], at: usize) -> Zeros {
        let id = wide(body[at]);
        let b = wide(body[at + 1]);
        let count = members_of(b) as usize;
        let begins = at + 2;
        let below = pairs_zeros(body, begins, count);
        let last = begins + count;
        let default = wide(body[last]);
        let head = idle_bits(part(id, 7, 1), 1) + idle_bits(part(b, 5, 3), 3);
        let own = head + idle_bits(part(default, 7, 1), 1);
        Zeros {
            zeros: own + below,
            next: last + 1,
        }
    }
}
