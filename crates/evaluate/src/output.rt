// What is printed: document 01's twelve lines, or why there are none.
use files::Answer;
use numbers::refusal::Refusal;
use std::io;
use tallies::Period;
use verdicts::Verdicts;

// The six lines of a report.
fn figures(rt: &impl Print, r: Period) -> io::Result<()> {
    let a = r.loss.available;
    let c = r.composite;
    println!(rt; "length {} maintenance {}", r.length, r.maintenance)?;
    println!(rt;
        "available {} unavailable {} undecided {}",
        a.count, r.loss.unavailable, r.loss.undecided.count
    )?;
    println!(rt; "high {} runs {}", a.high, a.runs)?;
    println!(rt; "sent {} lost {}", a.sent, a.lost)?;
    println!(rt; "delay {} {} {}", a.sum, a.least, a.most)?;
    println!(rt;
        "composite {} {} {}",
        c.available, c.unavailable, c.undecided
    )
}

// A line for each verdict.
fn verdicts(rt: &impl Print, v: Verdicts) -> io::Result<()> {
    println!(rt; "availability {}", v.availability)?;
    println!(rt; "composite {}", v.composite)?;
    println!(rt; "loss {}", v.loss)?;
    println!(rt; "mean {}", v.mean)?;
    println!(rt; "high {}", v.high)?;
    println!(rt; "runs {}", v.runs)
}

// All that is said of the files.
pub fn concluded(rt: &impl Print, concluded: Result<Answer, Refusal>) -> io::Result<()> {
    match concluded {
        Ok(a) => {
            figures(rt, a.period)?;
            verdicts(rt, a.verdicts)
        }
        Err(r) => println!(rt; "refused {r}"),
    }
}
