// Reports of a period between two stretches, and its verdicts.
use crate::stretches::Circuit;
use cases::{circuit, lines, printing};
use numbers::bytes;
use std::io;
use tallies::Period;
use verdicts::Verdicts;

// The figures of a report.
fn show_period(rt: &impl Print, r: Period) -> io::Result<()> {
    let a = r.loss.available;
    let c = r.composite;
    print!(rt; " {} {} |", r.length, r.maintenance)?;
    print!(rt;
        " {} {} {} |",
        a.count, r.loss.unavailable, r.loss.undecided.count
    )?;
    print!(rt; " {} {} | {} {} |", a.high, a.runs, a.sent, a.lost)?;
    print!(rt; " {} {} {} |", a.sum, a.least, a.most)?;
    print!(rt; " {} {} {}", c.available, c.unavailable, c.undecided)
}

// What the report on three summaries is.
pub fn show_report(rt: &impl Print, three: &[u8]) -> io::Result<()> {
    match reports::report(three) {
        Ok(r) => show_period(rt, r),
        Err(r) => print!(rt; " refused {r}"),
    }
}

// A digit for each: 0 not met, 1 met, 2 not yet.
fn show_verdicts(rt: &impl Print, v: Verdicts) -> io::Result<()> {
    print!(rt; " ")?;
    for verdict in [v.availability, v.composite, v.loss, v.mean, v.high, v.runs] {
        print!(rt; "{}", u64::from(verdict))?;
    }
    Ok(())
}

// What the verdicts of so many pairs are.
pub fn show_set(rt: &impl Print, s: &[u8], pairs: u64, summaries: &[u8]) -> io::Result<()> {
    match sets::verdicts(s, pairs, summaries) {
        Ok(v) => show_verdicts(rt, v),
        Err(r) => print!(rt; " refused {r}"),
    }
}

// n, p, letters, a and b: the report of the intervals from the `a`-th on to before the `b`-th, and its verdicts.
#[inline(never)]
pub fn line(rt: &impl Print, case: &[u8]) -> io::Result<()> {
    let s = circuit::settings_at(case, 1);
    let circuit = Circuit::new(s, lines::word(case, 3));
    let mut three = [0u8; 3072];
    circuit.put_three(
        lines::get_usize(case, 4),
        lines::get_usize(case, 5),
        &mut three,
    );
    printing::head(rt, lines::rest(case, 3))?;
    show_report(rt, &three)?;
    print!(rt; " |")?;
    show_set(rt, &s, 1, &three)?;
    println!(rt)
}

// Settings with n = 3, the first three objectives at one half and the mean delay at 1,000 ns, and then one field at another value.
fn with_field(p: u8, at: usize, value: u32) -> [u8; 64] {
    let mut s = circuit::settings(3, p);
    for objective in [24, 28, 32] {
        bytes::put_u32(&mut s, objective, 500_000);
    }
    bytes::put_u32(&mut s, 36, 1_000);
    bytes::put_u32(&mut s, at, value);
    s
}

// p, a field's place in settings, letters, the field's name and its value: the verdicts on all of the intervals.
#[inline(never)]
pub fn objective(rt: &impl Print, case: &[u8]) -> io::Result<()> {
    let s = with_field(
        lines::get_u8(case, 1),
        lines::get_usize(case, 2),
        lines::get_u32(case, 5),
    );
    printing::head(rt, lines::rest(case, 3))?;
    verdict_line(rt, s, lines::word(case, 3))
}

// The verdicts on all of the intervals.
pub fn verdict_line(rt: &impl Print, s: [u8; 64], letters: &[u8]) -> io::Result<()> {
    let mut three = [0u8; 3072];
    let circuit = Circuit::new(s, letters);
    circuit.put_three(0, circuit.count, &mut three);
    show_set(rt, &s, 1, &three)?;
    println!(rt)
}
