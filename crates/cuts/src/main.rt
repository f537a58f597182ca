// Runs the edges of documents 01 and 02 on summaries, reports and verdicts on the compiled code and prints what they give: `stdin` has a case in each line, and `stdout` is what
// they must give. The first letter of a case says what it is.
#![tactic(auto)]

mod joins;
mod periods_of;
mod sets_of;
mod stretches;

use cases::{lines, printing};
use std::io;

// One case. An enum of the cases would be a second list of them beside this one. None is inlined, so that the stack holds the arrays
// of one at a time.
fn one(rt: &impl Print, case: &[u8]) -> io::Result<()> {
    match lines::letter(case, 0) {
        b't' => printing::line(rt, lines::rest(case, 1)),
        b'j' => joins::line(rt, case),
        b'n' => joins::none(rt, case),
        b'r' => periods_of::line(rt, case),
        b'o' => periods_of::objective(rt, case),
        b's' => sets_of::two(rt, case),
        b'p' => sets_of::pairs(rt, case),
        b'w' => sets_of::places(rt, case),
        b'f' => sets_of::fifteen_of_seventeen(rt, case),
        _ => Ok(()),
    }
}

fn main(rt: HostRuntime) -> io::Result<()> {
    lines::each(&rt, |case| one(&rt, case))
}
