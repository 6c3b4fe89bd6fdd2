// Standard input into a buffer, for the programs.
#![tactic(auto)]

ghost use Rattle.std.specs.Prelude.{◌≤◌, length, IfOk};

use std::io;
use std::io::{Read, Stdin};

// Reads until the buffer is full or the input ends, and returns how many bytes it put at the start.
pub fn fill(input: &mut Stdin, buffer: &mut [u8]) -> io::Result<usize>
    ensures { IfOk result (λ n. n ≤ length buffer.new) }
{
    let mut n: usize = 0;
    // A read says how far it came, so no range is known before.
    while n < buffer.len() {
        let more = input.read(&mut buffer[n..])?;
        if more == 0 {
            break;
        }
        n += more;
    }
    Ok(n)
}
