// The bench program: reads one kind byte and a body from standard input, and prints number, first returned number, k and tally.
#![tactic(auto)]

mod kind;
mod line;

ghost use Rattle.std.specs.Prelude.{Some};
ghost use Rattle.bench.specs.Text.{line_text};

use line::Line;
use std::{fmt, io};

impl fmt::Display for Line {
    ghost output = { λ l. Some (line_text l) };

    fn fmt<W: fmt::Write>(&self, f: &mut fmt::Formatter<W>) -> fmt::Result {
        write!(
            f,
            "{} {} {} {}",
            self.number, self.first, self.k, self.tally
        )
    }
}

fn main(rt: HostRuntime) -> io::Result<()> {
    let mut buffer = [0u8; 4098];
    let n = input::fill(&mut rt.stdin(), &mut buffer)?;
    let l = line::decide(&buffer[..n]);
    println!(rt; "{l}")
}
