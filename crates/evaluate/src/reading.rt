// Reading both files. What cannot be opened or read as a file counts as missing; a read that a signal interrupts has read nothing. A proved loop has to
// end, and nothing says that a file does: so it has as many turns as no run uses up.
ghost use Rattle.std.specs.Prelude.{◌≡◌, ◌≤◌, length, IfOk};
ghost use Rattle.feeding.specs.Feeding.{Growing};

use feeding::State;
use std::fs::File;
use std::io;
use std::io::{ErrorKind, Read};
use std::rt::Files;

// What settings.rec begins with, as far as `buf` goes: how many bytes.
pub fn settings(rt: &impl Files, buf: &mut [u8]) -> io::Result<usize>
    ensures { IfOk result (λ n. n ≤ length buf.new) }
{
    let mut file = File::open(rt, "settings.rec")?;
    input::read_full(&mut file, buf)
}

// The whole file fed. Nothing is fed at first, and the state is ready for the tail (`ready_first`).
#[tactic(auto, using(feeding::proofs::Whole::ready_first))]
fn feed_all(
    file: &mut impl Read,
    settings: &[u8],
    tail: &mut [u8],
    buf: &mut [u8],
) -> io::Result<State>
    requires { length tail.old ≡ 48 }
    ensures { IfOk result (λ s. Growing s.held) }
{
    let mut state = feeding::start(settings);
    for _ in 0..u64::MAX {
        match file.read(buf) {
            Ok(0) => return Ok(state),
            Ok(n) => state = feeding::feed(state, tail, &buf[..n]),
            Err(e) if e.kind() == ErrorKind::Interrupted => {}
            Err(e) => return Err(e),
        }
    }
    Err(ErrorKind::TimedOut.into())
}

// All of intervals.rec fed, through room for 1,024 records.
pub fn all_intervals(rt: &impl Files, settings: &[u8]) -> io::Result<State>
    ensures { IfOk result (λ s. Growing s.held) }
{
    let mut file = File::open(rt, "intervals.rec")?;
    feed_all(&mut file, settings, &mut [0u8; 48], &mut [0u8; 49_152])
}
