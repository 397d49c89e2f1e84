// A whole input, as far as a lent buffer has room.
#![tactic(auto)]

ghost use Rattle.std.specs.Prelude.{◌<◌, ◌≤◌, length, take, IfOk};
ghost use Rattle.std.specs.Io.KnownBytes.{Consumes, IsAtEnd};

use std::io;
use std::io::Read;

// Reads until `out` is full or the input ends, and returns how many bytes it put at the start of `out`.
pub fn read_full<R: Read>(input: &mut R, out: &mut [u8]) -> io::Result<usize>
    ensures in_bounds { IfOk result (λ n. n ≤ length out.new) }
    ensures bytes { IfOk result (λ n. Consumes (R.remaining input.old) (R.remaining input.new) (take n out.new)) }
    ensures full_or_end { IfOk result (λ n. n < length out.new → IsAtEnd (R.remaining input.new)) }
{
    let mut done = 0;
    // A loop, since std's read_to_end needs the heap, read_exact doesn't tell how much it read, and copy's contract leaves open what a slice is given.
    while done < out.len() {
        let n = input.read(&mut out[done..])?;
        if n == 0 {
            break;
        }
        done += n;
    }
    Ok(done)
}
