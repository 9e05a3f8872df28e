// Input into lent bytes, in as many reads as that takes. Assumes nothing.
#![tactic(auto)]

ghost use Rattle.std.specs.Prelude.{◌<◌, length, take, IfOk, IfErr};
ghost use Rattle.std.specs.Io.KnownBytes.{Consumes, IsAtEnd};
ghost use Rattle.io.specs.Counts.{IsPrefixLen};
ghost use Rattle.whole_input.specs.Taken.{TakenAtFront};

use std::io;
use std::io::Read;

// Reads until `out` is full or the input ends, and gives how many bytes it put at the start of `out`. A read that fails
// ends it with its error, and what had come before stands at the start of `out`.
pub fn read_full<R: Read>(input: &mut R, out: &mut [u8]) -> io::Result<usize>
    ensures fits { IfOk result (λ n. IsPrefixLen n out.new) }
    ensures bytes { IfOk result (λ n. Consumes (R.remaining input.old) (R.remaining input.new) (take n out.new)) }
    ensures failed { IfErr result (λ _. TakenAtFront (R.remaining input.old) (R.remaining input.new) out.new) }
    ensures end { IfOk result (λ n. n < length out.new → IsAtEnd (R.remaining input.new)) }
{
    // No range: each read says how far it came. And std's `read_exact` says little of what had come before an error.
    let mut done = 0;
    while done < out.len() {
        let n = input.read(&mut out[done..])?;
        if n == 0 {
            break;
        }
        done += n;
    }
    Ok(done)
}
