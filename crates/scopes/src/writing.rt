// Writing a scope: the check pass judges its case, then all of its fields where it begins; the fill pass stores its bytes and tests nothing. How far a pen may be is asked as in `wire::pen`.
ghost use Rattle.std.specs.Prelude.{◌≡◌, ◌<◌, ◌^◌, eqb};
ghost use Rattle.wire.specs.Pen.{reach, Checked, Quick, Ready, Filled};
ghost use Rattle.wire.specs.Spell.{Spells};
ghost use Rattle.scopes.specs.Layout.{case_at};
ghost use Rattle.scopes.specs.Rows.{case_is, kind_is};
ghost use Rattle.scopes.specs.Write.{scope_acts, scope_bytes, has_id, type_fields, id_fields};

use super::parsing::case_of;
use super::rows::DrcScope;
use wire::bits::{fits, two_fit};
use wire::pen;
use wire::pen::{Fault, Pen};
use wire::spell::{Joined, check_all, fill_all, fits_all, two};

// The type that is written.
fn kind_of(scope: DrcScope) -> u16
    ensures { result ≡ kind_is scope }
{
    match scope {
        DrcScope::Plain(kind) => kind,
        DrcScope::Group { kind, .. } => kind,
        DrcScope::Preset { .. } => 3,
        DrcScope::Unknown => 0,
    }
}

// Whether its case is that of its type.
fn agrees(scope: DrcScope, types: &[u16]) -> bool
    ensures { result ≡ eqb (case_is scope) (case_at types.now (kind_is scope)) }
{
    let case = case_of(types, kind_of(scope));
    match scope {
        DrcScope::Plain(_) => 0 == case,
        DrcScope::Group { .. } => 1 == case,
        DrcScope::Preset { .. } => 2 == case,
        DrcScope::Unknown => 3 == case,
    }
}

fn has_id(scope: DrcScope) -> bool
    ensures { result ≡ has_id scope }
{
    match scope {
        DrcScope::Plain(_) => false,
        DrcScope::Group { .. } => true,
        DrcScope::Preset { .. } => true,
        DrcScope::Unknown => false,
    }
}

fn type_byte(reserved_type: u16, scope: DrcScope) -> u32
    ensures { Spells (type_fields reserved_type scope) result }
{
    two(reserved_type, 6, kind_of(scope), 2)
}

fn id_byte(scope: DrcScope) -> u32
    ensures { Spells (id_fields scope) result }
{
    match scope {
        DrcScope::Plain(_) => Joined::none().spelt(),
        DrcScope::Group {
            reserved,
            group_id,
            ..
        } => two(reserved, 1, group_id.0, 7),
        DrcScope::Preset {
            reserved,
            preset_id,
        } => two(reserved, 3, preset_id.0, 5),
        DrcScope::Unknown => Joined::none().spelt(),
    }
}

// 8 if its case is not that of its type, then 5 if a field is over its width, then its bytes.
pub fn check_scope(p: Pen, reserved_type: u16, scope: DrcScope, types: &[u16]) -> Pen
    requires { reach p < 2 ^ 31 }
    ensures { Checked (scope_acts types.now reserved_type scope) 2 p result }
{
    let p0 = pen::demand(p, Fault::Scope, agrees(scope, types));
    let kind = type_byte(reserved_type, scope);
    let id = id_byte(scope);
    let p1 = pen::demand(p0, Fault::Field, fits_all(&[kind, id]));
    let p2 = check_all(p1, true, &[kind]);
    check_all(p2, has_id(scope), &[id])
}

// How many bytes it makes, or 0 if it has a fault. One match decides, and the list of types is searched only where the fields fit.
pub fn plain_scope(reserved_type: u16, scope: DrcScope, types: &[u16]) -> usize
    ensures { Quick (scope_acts types.now reserved_type scope) 2 result }
{
    if !fits(reserved_type, 6) {
        return 0;
    }
    match scope {
        DrcScope::Plain(kind) => {
            if fits(kind, 2) && 0 == case_of(types, kind) {
                1
            } else {
                0
            }
        }
        DrcScope::Group {
            kind,
            reserved,
            group_id,
        } => {
            if two_fit(reserved, 1, group_id.0, 7) && fits(kind, 2) && 1 == case_of(types, kind) {
                2
            } else {
                0
            }
        }
        DrcScope::Preset {
            reserved,
            preset_id,
        } => {
            if two_fit(reserved, 3, preset_id.0, 5) && 2 == case_of(types, 3) {
                2
            } else {
                0
            }
        }
        DrcScope::Unknown => 0,
    }
}

// Its bytes.
pub fn fill_scope(reserved_type: u16, scope: DrcScope, out: &mut [u8], n: usize) -> usize
    requires { Ready (scope_bytes reserved_type scope) n out.old }
    ensures { Filled (scope_bytes reserved_type scope) n out.old result out.new }
{
    let m = fill_all(out, n, true, &[type_byte(reserved_type, scope)]);
    fill_all(out, m, has_id(scope), &[id_byte(scope)])
}
