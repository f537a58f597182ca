// Evaluates settings.rec and intervals.rec of the directory that it is run in: the whole file is one period. It opens, reads, prints and closes; what
// is said of the bytes is `files::conclude` of what was fed.
#![tactic(auto)]

mod output;
mod reading;

use std::io;
use std::rt::Files;

// The intervals, by the settings that were read.
fn evaluate(rt: &(impl Files + Print), settings: &[u8]) -> io::Result<()> {
    match reading::all_intervals(rt, settings) {
        Ok(state) => output::concluded(rt, files::conclude(settings, state)),
        Err(_) => println!(rt; "no file intervals.rec"),
    }
}

fn main(rt: HostRuntime) -> io::Result<()> {
    // a byte more than settings are, so that a longer file shows
    let mut space = [0u8; 65];
    match reading::settings(&rt, &mut space) {
        Ok(n) => evaluate(&rt, &space[..n]),
        Err(_) => println!(rt; "no file settings.rec"),
    }
}
