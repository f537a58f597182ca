// Verdicts of several pairs.
use crate::periods_of;
use crate::stretches::Circuit;
use cases::{circuit, lines, printing};
use numbers::bytes;
use std::io;

// Available 15 of 17; the fifth word is the objective.
#[inline(never)]
pub fn fifteen_of_seventeen(rt: &impl Print, case: &[u8]) -> io::Result<()> {
    let mut s = circuit::settings(2, 0);
    bytes::put_u32(&mut s, 24, lines::get_u32(case, 5));
    printing::head(rt, lines::rest(case, 1))?;
    periods_of::verdict_line(rt, s, b"LLLLHHLLLLLLLLLLL")
}

// An objective's place in settings, the letters of two pairs, the objective's name and its value; the others are 0: the verdicts of both, the whole of each one's letters
// the period.
#[inline(never)]
pub fn two(rt: &impl Print, case: &[u8]) -> io::Result<()> {
    let mut s = circuit::settings(3, 2);
    bytes::put_u32(&mut s, lines::get_usize(case, 1), lines::get_u32(case, 5));
    printing::head(rt, lines::rest(case, 2))?;
    let mut six = [0u8; 6144];
    for (k, three) in (2..).zip(six.chunks_exact_mut(3072)) {
        let circuit = Circuit::new(s, lines::word(case, k));
        circuit.put_three(0, circuit.count, three);
    }
    periods_of::show_set(rt, &s, 2, &six)?;
    println!(rt)
}

// The number that the `k`-th letter of a word is.
fn digit(word: &[u8], k: usize) -> usize {
    usize::from(bytes::get_u8(word, k).wrapping_sub(b'0'))
}

// A summary of nine L, as a word says it: its two digits are the number of the first interval and the number after the last. With an `m` behind them its label settings, here n,
// are others, and with an `x` its last byte, a spare one, is not zero.
fn put_said(word: &[u8], summary: &mut [u8]) {
    let mark = bytes::get_u8(word, 2);
    let n = if mark == b'm' { 4 } else { 3 };
    let circuit = Circuit::new(circuit::settings(n, 2), b"LLLLLLLLL");
    circuit.put_summary(digit(word, 0), digit(word, 1), summary);
    if mark == b'x' {
        bytes::put_u8(summary, 1023, 1);
    }
}

// Six summaries, each a word.
fn said(case: &[u8]) -> [u8; 6144] {
    let mut six = [0u8; 6144];
    for (k, summary) in (1..).zip(six.chunks_exact_mut(1024)) {
        put_said(lines::word(case, k), summary);
    }
    six
}

// What the report of the first of two pairs and the verdicts of both give. With one or more of the six summaries at fault, that is the refusal and its place.
#[inline(never)]
pub fn places(rt: &impl Print, case: &[u8]) -> io::Result<()> {
    let six = said(case);
    printing::head(rt, lines::rest(case, 1))?;
    periods_of::show_report(rt, six.get(..3072).unwrap_or(&[]))?;
    print!(rt; " |")?;
    periods_of::show_set(rt, &circuit::settings(3, 2), 2, &six)?;
    println!(rt)
}

// A number of pairs that is refused, or does not fit the bytes.
#[inline(never)]
pub fn pairs(rt: &impl Print, case: &[u8]) -> io::Result<()> {
    let count = lines::get_u64(case, 1);
    print!(rt; " {count}")?;
    periods_of::show_set(rt, &circuit::settings(3, 2), count, b"")
}
