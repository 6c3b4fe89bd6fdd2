// The four numbers that the bench program prints (document 01, "The bench program"), decided from its input: one kind byte, then the body.
ghost use Rattle.std.specs.Prelude.{◌≡◌};
ghost use Rattle.frame.specs.Numbers.{refusal};
ghost use Rattle.frame.specs.Entry.{measuring, tallying};
ghost use Rattle.base.specs.Kind as Base;
ghost use Rattle.scene_kind.specs.Kind as Scene;
ghost use Rattle.text_label.specs.Kind as TextLabel;
ghost use Rattle.multi_stream.specs.Kind as MultiStream;
ghost use Rattle.drc_kind.specs.Kind as DrcLoudness;
ghost use Rattle.bench.specs.Kinds.{number_of};
ghost use Rattle.bench.specs.Line.{line_of, kind_line, judged_line, refused_line, shown};

use super::kind::Kind;
use frame::Refusal;

// number, first returned number, k, tally: `line_of` and document 01 give four numbers, a refusal's among them.
#[derive(Clone, Copy, PartialEq, Eq)]
pub struct Line {
    pub number: u16,
    pub first: usize,
    pub k: usize,
    pub tally: usize,
}

impl From<Refusal> for Line {
    ghost from_gives = { λ r l. l ≡ refused_line (refusal r) };

    fn from(r: Refusal) -> Line {
        match r {
            Refusal::Short(s) => refused(1, s.need),
            Refusal::TooLong(n) => refused(2, n),
            Refusal::NoRoom(table, _) => refused(3, table as usize),
        }
    }
}

// The kind is judged first; an empty input is kind 0.
pub fn decide(input: &[u8]) -> Line
    ensures { result ≡ line_of input.now }
{
    let Some((number, body)) = input.split_first() else {
        return refused(11, 0);
    };
    match Kind::try_from(*number) {
        Ok(kind) => match judged(kind, body) {
            Ok(line) => line,
            Err(r) => Line::from(r),
        },
        Err(x) => refused(11, x.0 as usize),
    }
}

// A body over 4,096 bytes counts as one of 4,097.
fn judged(kind: Kind, body: &[u8]) -> Result<Line, Refusal>
    ensures { shown result ≡ kind_line (number_of kind) body.now }
{
    if 4096 < body.len() {
        return Err(Refusal::TooLong(4097));
    }
    match kind {
        Kind::Base => base_line(body),
        Kind::Scene => scene_line(body),
        Kind::TextLabel => text_label_line(body),
        Kind::MultiStream => multi_stream_line(body),
        Kind::DrcLoudness => drc_loudness_line(body),
    }
}

// ---- a body of each kind: what measuring and tallying say

fn base_line(body: &[u8]) -> Result<Line, Refusal>
    ensures { shown result ≡ judged_line (measuring Base.kind body.now) (tallying Base.kind body.now) }
{
    let s = base::measure(body)?;
    Ok(told(s.k, base::tally(body)?))
}

fn scene_line(body: &[u8]) -> Result<Line, Refusal>
    ensures { shown result ≡ judged_line (measuring Scene.kind body.now) (tallying Scene.kind body.now) }
{
    let s = scene::measure(body)?;
    Ok(told(s.k, scene::tally(body)?))
}

fn text_label_line(body: &[u8]) -> Result<Line, Refusal>
    ensures { shown result ≡ judged_line (measuring TextLabel.kind body.now) (tallying TextLabel.kind body.now) }
{
    let s = text_label::measure(body)?;
    Ok(told(s.k, text_label::tally(body)?))
}

fn multi_stream_line(body: &[u8]) -> Result<Line, Refusal>
    ensures { shown result ≡ judged_line (measuring MultiStream.kind body.now) (tallying MultiStream.kind body.now) }
{
    let s = multi_stream::measure(body)?;
    Ok(told(s.k, multi_stream::tally(body)?))
}

fn drc_loudness_line(body: &[u8]) -> Result<Line, Refusal>
    ensures { shown result ≡ judged_line (measuring DrcLoudness.kind body.now) (tallying DrcLoudness.kind body.now) }
{
    let s = drc_loudness::measure(body)?;
    Ok(told(s.k, drc_loudness::tally(body)?))
}

fn told(k: usize, tally: usize) -> Line
    ensures { result ≡ record { number = 0; first = 0; k = k; tally = tally } }
{
    Line {
        number: 0,
        first: 0,
        k,
        tally,
    }
}

fn refused(number: u16, first: usize) -> Line
    ensures { result ≡ record { number = number; first = first; k = 0; tally = 0 } }
{
    Line {
        number,
        first,
        k: 0,
        tally: 0,
    }
}
