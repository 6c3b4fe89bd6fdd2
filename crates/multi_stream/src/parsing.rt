// Reading the multi_stream body: the reads in the Rust's order. One pass measures and touches nothing, one takes the record and fills table 8 and tests nothing. A body and a position stay two arguments, as in `wire::reads`.
ghost use Rattle.std.specs.Prelude.{◌≡◌, true, [], ◌∷◌, ◌≤◌, ◌/◌, length};
ghost use Rattle.wire.specs.Prog.{done, run};
ghost use Rattle.wire.specs.Reads.{map_out, is_done, pos_of, Summed};
ghost use Rattle.wire.specs.Layout.{flat};
ghost use Rattle.frame.specs.Numbers.{accepted};
ghost use Rattle.frame.specs.Entry.{Measures};
ghost use Rattle.frame.specs.Sight.{Tops, Fills};
ghost use Rattle.stream_groups.specs.Layout.{group};
ghost use Rattle.multi_stream.specs.Read.{main};
ghost use Rattle.multi_stream.specs.Rows.{main_columns};
ghost use Rattle.multi_stream.specs.Kind.{kind};
ghost use Rattle.multi_stream.specs.Contract.{sized};

use super::Sizes;
use super::rows::{MainStream, MpegH3dAudioMultiStream, MultiStreamMain};
use stream_groups::parsing::{Group, measure_groups};
use wire::bits::{part, wide};
use wire::list::store_rows;
use wire::reads::{Short, byte_at, head};
use wire::rows::trailing_run;

// ---- the body, measured

// The groups of the main-stream part, if the flag says that it is there, and where it ends.
fn main_rows(body: &[u8], at: usize, present: bool) -> Result<(usize, usize), Short>
    requires { at ≤ length body.now }
    ensures { Summed (main (flat 5 group) present) (λ m. length m.groups) 127 body.now at result }
{
    if present {
        let n = head(body, at, 2)?;
        let count = part(wide(body[at + 1]), 0, 7) as usize;
        let k = measure_groups(body, n, count)?;
        Ok((count, k))
    } else {
        Ok((0, at))
    }
}

// The groups of a body, and k.
pub fn rows(body: &[u8]) -> Result<(usize, usize), Short>
    ensures { Summed kind.program (λ t. length t.1.0) 127 body.now 0 result }
{
    let (b0, n1) = byte_at(body, 0)?;
    main_rows(body, n1, part(b0, 7, 1) == 1)
}

// ---- the body, once it was measured

// The main-stream part, if the flag says that it is there; of its groups only the count.
fn main_at(body: &[u8], present: bool) -> MainStream
    requires { is_done (run (main (flat 5 group) present) body.now 1) ≡ true }
    ensures { (result.present ≡ present) × (done (main_columns result) (pos_of (run (main (flat 5 group) present) body.now 1)) ≡ map_out (λ m. m.columns) (run (main (flat 5 group) present) body.now 1)) }
{
    if present {
        let a = wide(body[1]);
        let g = wide(body[2]);
        MainStream::of(MultiStreamMain {
            reserved_aux: part(a, 7, 1) as u8,
            num_auxiliary_streams: part(a, 0, 7) as u8,
            reserved_groups: part(g, 7, 1) as u8,
            groups: part(g, 0, 7),
        })
    } else {
        MainStream::absent()
    }
}

// The record.
pub fn record_at(body: &[u8], s: Sizes) -> MpegH3dAudioMultiStream
    requires { Measures kind body.now (accepted (sized s.groups s.k)) }
    ensures { Tops kind body.now result }
{
    let b0 = wide(body[0]);
    MpegH3dAudioMultiStream {
        this_stream_id: part(b0, 0, 7) as u8,
        main: main_at(body, part(b0, 7, 1) == 1),
        trailing: trailing_run(s.k, body.len()),
    }
}

// Fills table 8: the groups begin behind the third byte.
pub fn fill(body: &[u8], s: Sizes, groups: &mut [u16])
    requires { Measures kind body.now (accepted (sized s.groups s.k)) × (s.groups ≤ length groups.old / 5) }
    ensures { Fills kind body.now (groups.old ∷ []) (groups.new ∷ []) }
{
    let count = s.groups;
    if 0 < count {
        let _ = store_rows(&Group, body, 3, count as usize, groups, 0);
    }
}
