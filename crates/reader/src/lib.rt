// A reader that keeps the body and a position together (document 01, "Reader"): thin, over the reads of `reads` on a slice and a number.
#![tactic(auto)]

ghost use Rattle.std.specs.Prelude.{◌≡◌};
ghost use Rattle.reader.specs.Reading.{ReadsByte, TakesRun, GivesRest, second_byte};
ghost use Rattle.wire.specs.Prog.{run};
ghost use Rattle.wire.specs.Reads.{read_out};

use wire::reads::Short;

mod reads;

#[derive(Clone, Copy)]
pub struct Reader<'a> {
    pub body: &'a [u8],
    pub pos: usize,
}

impl<'a> Reader<'a> {
    pub fn new(body: &'a [u8]) -> Reader<'a>
        ensures { (result.body ≡ body.entry) × (result.pos ≡ 0) }
    {
        Reader { body, pos: 0 }
    }

    // The next byte, and the position behind it.
    pub fn u8(&mut self) -> Result<(u16, usize), Short>
        ensures { ReadsByte self.old result self.new }
    {
        let step = reads::byte_from(self.body, self.pos);
        self.pos = step.next;
        step.byte
    }

    // The next `count` bytes, by their place, and the position behind them.
    pub fn take(&mut self, count: usize) -> Result<(usize, usize), Short>
        ensures { TakesRun count self.old result self.new }
    {
        let step = reads::run_from(self.body, self.pos, count);
        self.pos = step.next;
        step.run
    }

    // All that is left.
    pub fn rest(&mut self) -> &'a [u8]
        ensures { GivesRest self.old result.now self.new }
    {
        let rest = reads::rest_from(self.body, self.pos);
        self.pos = self.body.len();
        rest
    }
}

// The second byte of a plain slice, or the first refusal: whoever calls this needs no proof by hand.
pub fn second(body: &[u8]) -> Result<(u16, usize), Short>
    ensures { read_out result ≡ run second_byte body.now 0 }
{
    let mut reader = Reader::new(body);
    let _ = reader.u8();
    reader.u8()
}
