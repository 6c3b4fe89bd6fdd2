// The reserved bits at 0 of a scope: those of its type byte, and those of its ID byte where it has one.
ghost use Rattle.std.specs.Prelude.{◌≡◌, ◌≤◌};
ghost use Rattle.scopes.specs.Tally.{scope_zeros};

use super::rows::DrcScope;
use wire::bits::idle_bits;

pub fn scope_zeros(reserved_type: u16, scope: DrcScope) -> u32
    ensures { (result ≡ scope_zeros reserved_type scope) × (result ≤ 9) }
{
    let own = idle_bits(reserved_type, 6);
    match scope {
        DrcScope::Plain(_) => own,
        DrcScope::Group { reserved, .. } => own + idle_bits(reserved, 1),
        DrcScope::Preset { reserved, .. } => own + idle_bits(reserved, 3),
        DrcScope::Unknown => own,
    }
}
