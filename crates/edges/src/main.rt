// Runs document 01's edges on the compiled code and prints what they give: `stdin` has a case in each line, and `stdout` is what they must give. The first letter of a
// case says what it is. `clear`, `put` and `add` make the bytes that the cases behind them are about; the others print.
#![tactic(auto)]

mod delays_edges;
mod labels_edges;
mod measure_edges;
mod records_edges;

use cases::{lines, printing};
use std::io;

// One case, over the bytes that are held. An enum of the cases would be a second list of them beside this one.
fn one(rt: &impl Print, held: &mut [u8; 128], case: &[u8]) -> io::Result<()> {
    match lines::letter(case, 0) {
        b'c' => *held = [0u8; 128],
        b'p' => records_edges::put(held, case, 3),
        b'a' => measure_edges::add(held, case),
        b't' => printing::line(rt, lines::rest(case, 1))?,
        b'l' => records_edges::lengths(rt, held, case)?,
        b'f' => records_edges::field(rt, held, case)?,
        b's' => records_edges::spare(rt, held, case)?,
        b'i' => measure_edges::interval(rt, held, case)?,
        b'm' => measure_edges::many_frames(rt, case)?,
        b'd' => delays_edges::line(rt, case)?,
        b'e' => labels_edges::line(rt, case)?,
        _ => (),
    }
    Ok(())
}

fn main(rt: HostRuntime) -> io::Result<()> {
    let mut held = [0u8; 128];
    lines::each(&rt, |case| one(&rt, &mut held, case))
}
