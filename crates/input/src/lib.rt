// What the programs share that read: bytes until there is no more room or no more input.
#![tactic(auto)]

ghost use Rattle.std.specs.Io.KnownBytes.{Consumes, IsAtEnd};
ghost use Rattle.std.specs.Prelude.{ℕ, ◌<◌, ◌≤◌, length, take, IfOk};

use std::io;
use std::io::{ErrorKind, Read};

// Reads until `text` is full or the input ends, and says how many bytes that is. A read that a signal interrupts has read nothing. A proved loop has to end, and nothing
// says that an input does: so it has as many turns as no run uses up. No reader of std does this without a vector: `read_exact` does not say how many bytes came before
// the end, and `io::copy` into a slice promises nothing of its bytes.
pub fn read_full<R: Read>(input: &mut R, text: &mut [u8]) -> io::Result<usize>
    ensures bound { IfOk result (λ n. n ≤ length text.new) }
    ensures bytes { IfOk result (λ n. Consumes (R.remaining input.old) (R.remaining input.new) (take n text.new)) }
    ensures end { IfOk result (λ n. n < length text.new → IsAtEnd (R.remaining input.new)) }
{
    let mut done: usize = 0;
    for _ in 0..u64::MAX {
        match input.read(&mut text[done..]) {
            Ok(0) => return Ok(done),
            Ok(n) => done += n,
            Err(e) if e.kind() == ErrorKind::Interrupted => continue,
            Err(e) => return Err(e),
        }
    }
    Err(ErrorKind::TimedOut.into())
}
