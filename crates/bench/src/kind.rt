// The five kinds of bodies, by document 01's numbers.
ghost use Rattle.bench.specs.Kinds.{Names};

#[derive(Clone, Copy, PartialEq, Eq)]
pub enum Kind {
    Base,
    Scene,
    TextLabel,
    MultiStream,
    DrcLoudness,
}

// A number that names no kind.
#[derive(Clone, Copy, PartialEq, Eq)]
pub struct UnknownKind(pub u8);

impl TryFrom<u8> for Kind {
    type Error = UnknownKind;

    ghost try_from_gives = { Names };

    fn try_from(number: u8) -> Result<Kind, UnknownKind> {
        match number {
            1 => Ok(Kind::Base),
            2 => Ok(Kind::Scene),
            3 => Ok(Kind::TextLabel),
            4 => Ok(Kind::MultiStream),
            5 => Ok(Kind::DrcLoudness),
            _ => Err(UnknownKind(number)),
        }
    }
}
