// Document 01's lines on labels. Printed are the loss labels and the composite labels of the stretch; then
// what each step of the running evaluator settles, by value: how many labels and which, on the loss track;
// and then the same over an evaluator that is lent to each step, with each record once more, which is refused
// and leaves it as it was.
use cases::{circuit, lines};
use evaluator::{Answer, Evaluator};
use labels::stretch;
use std::io;

// Room for eight records, and for their labels.
const RECORDS: usize = 384;

const LABELS: usize = 16;

// The labels of both tracks, a digit each.
fn show_labels(rt: &impl Print, s: &[u8], records: &[u8]) -> io::Result<()> {
    let mut out = [9u8; LABELS];
    match stretch::labels(s, records, &mut out, 0) {
        Ok(()) => {
            for track in 0..2 {
                print!(rt; " ")?;
                for label in out.iter().skip(track).step_by(2).take(records.len() / 48) {
                    print!(rt; "{label}")?;
                }
            }
        }
        Err(r) => print!(rt; " refused {r}")?,
    }
    Ok(())
}

// What a step settled on the loss track.
fn show_settled(rt: &impl Print, answer: Answer) -> io::Result<()> {
    print!(rt; " {}x{}", answer.loss.count, answer.loss.label)
}

// The steps with each record, by value.
fn show_steps(rt: &impl Print, mut e: Evaluator, records: &[u8]) -> io::Result<()> {
    for record in records.chunks_exact(48) {
        match evaluator::step(e, record) {
            Ok((next, answer)) => {
                e = next;
                show_settled(rt, answer)?;
            }
            Err(r) => print!(rt; " refused {r}")?,
        }
    }
    Ok(())
}

// A step over a lent evaluator.
fn lend(rt: &impl Print, e: &mut Evaluator, record: &[u8]) -> io::Result<()> {
    match evaluator::step_in(e, record) {
        Ok(answer) => show_settled(rt, answer),
        Err(r) => print!(rt; " refused {r}"),
    }
}

// The steps with each record, twice.
fn lend_all(rt: &impl Print, mut e: Evaluator, records: &[u8]) -> io::Result<()> {
    for record in records.chunks_exact(48) {
        lend(rt, &mut e, record)?;
        lend(rt, &mut e, record)?;
    }
    Ok(())
}

// What both kinds of steps settle, from the start on.
fn show_evaluator(rt: &impl Print, s: &[u8], records: &[u8]) -> io::Result<()> {
    print!(rt; " |")?;
    match evaluator::start(s) {
        Ok(e) => {
            show_steps(rt, e, records)?;
            print!(rt; " |")?;
            lend_all(rt, e, records)
        }
        Err(r) => print!(rt; " refused {r}"),
    }
}

// n, p and letters.
pub fn line(rt: &impl Print, case: &[u8]) -> io::Result<()> {
    let s = circuit::settings_at(case, 1);
    let letters = lines::word(case, 3);
    let records = circuit::records::<RECORDS>(letters);
    rt.write_all(letters)?;
    if letters.len() <= 8 {
        let records = &records[..48 * letters.len()];
        show_labels(rt, &s, records)?;
        show_evaluator(rt, &s, records)?;
    }
    println!(rt)
}
