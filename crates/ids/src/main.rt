// The four ID types in use: a call that hands one for another is rejected at build time.
// In code the compiler rejects it (mismatched types), in a contract the prover: must-fail/ has an edit for each pair.
#![tactic(auto)]

ghost use Rattle.std.specs.Prelude.{◌≡◌, ◌&&◌, true, IsOk};
ghost use Rattle.ids.specs.Ids.{same_group, same_switch_group, same_group_preset, same_drc_set};

use wire::ids::{DrcSetId, GroupId, GroupPresetId, SwitchGroupId};

// Each ID is the same as itself.
fn each_same(
    group: GroupId,
    switch_group: SwitchGroupId,
    preset: GroupPresetId,
    drc_set: DrcSetId,
) -> bool
    ensures { result ≡ (same_group group group && same_switch_group switch_group switch_group) && (same_group_preset preset preset && same_drc_set drc_set drc_set) }
{
    (group == group && switch_group == switch_group) && (preset == preset && drc_set == drc_set)
}

#[derive(Debug, Drop)]
struct NotSame;

// The requires makes each call a proof obligation; the run tests it again.
fn expect(ok: bool) -> Result<(), NotSame>
    requires { ok ≡ true }
    ensures { IsOk result }
{
    if ok { Ok(()) } else { Err(NotSame) }
}

fn main() -> Result<(), NotSame> {
    expect(GroupId(5) == GroupId(5))?;
    expect(SwitchGroupId(5) == SwitchGroupId(5))?;
    expect(GroupPresetId(5) == GroupPresetId(5))?;
    expect(DrcSetId(5) == DrcSetId(5))?;
    expect(each_same(GroupId(5), SwitchGroupId(5), GroupPresetId(5), DrcSetId(5)))
}
