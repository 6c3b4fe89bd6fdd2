// Reading the base body: the reads in the Rust's order. One pass measures, one takes the record and tests nothing. A body and a position stay two arguments, as in `wire::reads`.
ghost use Rattle.std.specs.Prelude.{◌≡◌, true, ◌≤◌, length};
ghost use Rattle.wire.specs.Prog.{done, run};
ghost use Rattle.wire.specs.Straight.{ends, ones};
ghost use Rattle.wire.specs.Reads.{map_out, end_of, ends_out, is_done, pos_of};
ghost use Rattle.frame.specs.Numbers.{accepted};
ghost use Rattle.frame.specs.Entry.{Measures};
ghost use Rattle.frame.specs.Sight.{Tops};
ghost use Rattle.base.specs.Rows.{sets_of};
ghost use Rattle.base.specs.Read.{sets};
ghost use Rattle.base.specs.Kind.{kind};
ghost use Rattle.base.specs.Contract.{sized};

use super::Sizes;
use super::rows::{CompatibleSets, MpegH3dAudio};
use wire::bits::{part, wide};
use wire::reads::{Short, byte_at, head, run_at};
use wire::rows::{Payload, trailing_run};

// ---- measuring

// Where the compatible sets end, which are there unless the flag says that they are absent.
fn sets_end(body: &[u8], at: usize, absent: bool) -> Result<usize, Short>
    requires { at ≤ length body.now }
    ensures { ends_out result ≡ end_of (run (sets absent) body.now at) }
{
    if absent {
        return Ok(at);
    }
    let (count, first) = byte_at(body, at)?;
    let (_, next) = run_at(body, first, count as usize)?;
    Ok(next)
}

// Where the three bytes before the sets end.
pub fn head_end(body: &[u8]) -> Result<usize, Short>
    ensures { ends_out result ≡ ends (ones 3) body.now 0 }
{
    head(body, 0, 3)
}

// Where the trailing run begins: k.
pub fn end(body: &[u8]) -> Result<usize, Short>
    ensures { ends_out result ≡ end_of (run kind.program body.now 0) }
{
    let n = head_end(body)?;
    sets_end(body, n, part(wide(body[1]), 6, 1) == 1)
}

// ---- the body, once it was measured

// The compatible sets, if there are any: their count is the fourth byte.
fn sets_at(body: &[u8], absent: bool) -> CompatibleSets
    requires { is_done (run (sets absent) body.now 3) ≡ true }
    ensures { done result (pos_of (run (sets absent) body.now 3)) ≡ map_out sets_of (run (sets absent) body.now 3) }
{
    if absent {
        CompatibleSets::absent()
    } else {
        CompatibleSets::listed(Payload {
            offset: 4,
            length: wide(body[3]),
        })
    }
}

// The record.
pub fn record_at(body: &[u8], s: Sizes) -> MpegH3dAudio
    requires { Measures kind body.now (accepted (sized s.k)) }
    ensures { Tops kind body.now result }
{
    let b1 = wide(body[1]);
    let b2 = wide(body[2]);
    MpegH3dAudio {
        profile_level_indication: body[0],
        interactivity_enabled: part(b1, 7, 1) == 1,
        compatible_sets: sets_at(body, part(b1, 6, 1) == 1),
        reserved_flags: part(b1, 0, 6) as u8,
        reserved_layout: part(b2, 6, 2) as u8,
        reference_channel_layout: part(b2, 0, 6) as u8,
        trailing: trailing_run(s.k, body.len()),
    }
}
