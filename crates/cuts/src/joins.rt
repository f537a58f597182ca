// Stretches of one interval each, joined from left to right, from right to left and in pairs: each gives the bytes of the uncut stretch.
use crate::stretches::Circuit;
use cases::{circuit, lines};
use numbers::bytes;
use std::io;

// The join of two, or zeros.
fn joined(left: &[u8; 1024], right: &[u8; 1024]) -> [u8; 1024] {
    let mut out = [0u8; 1024];
    let _ = joining::join(left, right, &mut out, 0);
    out
}

// Each stretch of one interval behind what is held.
fn from_left(circuit: &Circuit) -> [u8; 1024] {
    let mut held = circuit.summary(0, 0);
    for k in 0..circuit.count {
        held = joined(&held, &circuit.summary(k, k + 1));
    }
    held
}

// Each stretch of one interval before what is held.
fn from_right(circuit: &Circuit) -> [u8; 1024] {
    let mut held = circuit.summary(circuit.count, circuit.count);
    for k in (0..circuit.count).rev() {
        held = joined(&circuit.summary(k, k + 1), &held);
    }
    held
}

// Two neighbours at a time, and what is left behind them.
fn in_pairs(circuit: &Circuit) -> [u8; 1024] {
    let mut held = circuit.summary(0, 0);
    for k in 0..circuit.count / 2 {
        let pair = joined(
            &circuit.summary(2 * k, 2 * k + 1),
            &circuit.summary(2 * k + 1, 2 * k + 2),
        );
        held = joined(&held, &pair);
    }
    joined(
        &held,
        &circuit.summary(circuit.count / 2 * 2, circuit.count),
    )
}

// Whether each is the whole, and the number after the last interval.
fn grouped(rt: &impl Print, circuit: &Circuit) -> io::Result<()> {
    let whole = circuit.summary(0, circuit.count);
    print!(rt; " ")?;
    for other in [from_left(circuit), from_right(circuit), in_pairs(circuit)] {
        print!(rt; "{}", u8::from(whole == other))?;
    }
    println!(rt; " {}", bytes::get_u32(&whole, 4))
}

// Letters, n and p.
#[inline(never)]
pub fn line(rt: &impl Print, case: &[u8]) -> io::Result<()> {
    let letters = lines::word(case, 1);
    rt.write_all(lines::rest(case, 1))?;
    if letters.len() <= 72 {
        let circuit = Circuit::new(circuit::settings_at(case, 2), letters);
        grouped(rt, &circuit)?;
    }
    Ok(())
}

// No records from the number that is the fourth word on.
#[inline(never)]
pub fn none(rt: &impl Print, case: &[u8]) -> io::Result<()> {
    let s = circuit::settings(3, 2);
    let mut out = [0u8; 1024];
    rt.write_all(lines::rest(case, 1))?;
    match making::summary(&s, lines::get_u64(case, 4), b"", &mut out, 0) {
        Ok(()) => print!(rt; ": written")?,
        Err(r) => print!(rt; " refused {r}")?,
    }
    println!(rt)
}
