// The summary of a stretch, gathered in one pass over its records. A segment, the records in a row in which neither mark changes, is one run
// for both tracks; only where a mark changes is it put behind them.
#![tactic(auto)]

ghost use Rattle.std.specs.Prelude.{◌≡◌, true, ◌+◌, ◌-◌, ◌≤◌};
ghost use Rattle.numbers.specs.Limits.{intervals};
ghost use Rattle.settings.specs.Settings.{label_meets};
ghost use Rattle.intervals.specs.Sequence.{reads_from};
ghost use Rattle.tallies.specs.Seen.{marked_as};
ghost use Rattle.runs.specs.Runs.{single};
ghost use Rattle.tracks.specs.Tracks.{push};
ghost use Rattle.gathering.specs.Gathering.{gathered, onwards, toned, several_of, Begun, Gone};

use intervals::Interval;
use labels::marks;
use numbers::refusal::{Fault, Refusal};
use rule::Both;
use runs::middles::Middle;
use runs::run;
use runs::run::{Edges, Lengths, Run};
use settings::LabelSettings;
use summaries::Summary;
use tracks::Track;

// A track of several runs, taken apart.
#[derive(Clone, Copy)]
pub struct Several {
    pub first: Run,
    pub middle: Middle,
    pub last: Run,
}

// The run of one interval.
fn run_of(mark: bool, v: Interval) -> Run
    ensures { result ≡ single (marked_as mark v) }
{
    run::single(track_rules::marked(mark, v))
}

// A segment, kept as a run of high marks, as the run of a track that has this mark in it.
#[tactic(auto, unfolding(crate::specs::Gathering::toned))]
fn toned(mark: bool, g: Run) -> Run
    ensures { result ≡ toned mark g }
{
    let load = g.load;
    let edges = if mark { g.edges } else { Edges::NONE };
    Run {
        mark,
        len: g.len,
        load,
        edges,
    }
}

// The summary of the `n` records of `s`, those before the `place`-th of which make two tracks of several runs and the segment `start` behind them;
// or the first record that is at fault. The first runs stay as they are, so that a turn changes no more than the middles and the last runs: `go_on`
// has the same turn over whole tracks, which it would copy each time. What it takes is no struct, as it's taken apart into the loop's variables at
// once; `n` was counted by `gather`.
fn go_on_several(
    l: LabelSettings,
    s: &[u8],
    n: usize,
    first: u32,
    held: Both<Several>,
    start: Run,
    begun: Both<bool>,
    from: u32,
    place: usize,
) -> Result<Summary, Refusal>
    requires { Gone l first (several_of held.loss) (several_of held.composite) start from place }
    ensures { result ≡ onwards l first from place (push l.n l.p (several_of held.loss) (toned begun.loss start)) (push l.n l.p (several_of held.composite) (toned begun.composite start)) (reads_from (n - place) s.now place) }
{
    // written out: what a function gives is known by an equation, which the proofs above would have to carry
    let by = Lengths {
        n: l.n as u32,
        p: l.p as u32,
    };
    let loss_first = held.loss.first;
    let composite_first = held.composite.first;
    let mut loss = held.loss.middle;
    let mut loss_last = held.loss.last;
    let mut composite = held.composite.middle;
    let mut composite_last = held.composite.last;
    let mut segment = start;
    let mut high = begun;
    // counted beside `k`: it goes on as `after`
    let mut due = from;
    for k in place..n {
        // `let .. else`: so document 01 has each record read taken apart.
        let Some(v) = intervals::read_at(s, k) else {
            return Err(Fault::Field.at(k as u64));
        };
        if v.number != due {
            return Err(Fault::Order.at(k as u64));
        }
        let x = run_of(true, v);
        let now = marks::marks(l, v);
        // `&`, and no `==` of the two: nothing branches between them
        if (now.loss == high.loss) & (now.composite == high.composite) {
            segment = run::glue(by.p, segment, x);
        } else {
            let r = toned(high.loss, segment);
            loss = tracks::middle_with(by, loss, loss_last, r);
            loss_last = tracks::last_with(by.p, loss_last, r);
            let q = toned(high.composite, segment);
            composite = tracks::middle_with(by, composite, composite_last, q);
            composite_last = tracks::last_with(by.p, composite_last, q);
            segment = x;
            high = now;
        }
        due += 1;
    }
    Ok(Summary {
        first,
        after: due,
        label: l,
        loss: tracks::push(
            by,
            Track::Many(loss_first, loss, loss_last),
            toned(high.loss, segment),
        ),
        composite: tracks::push(
            by,
            Track::Many(composite_first, composite, composite_last),
            toned(high.composite, segment),
        ),
    })
}

// The summary of the `n` records of `s`, the first of which has these marks and is the segment `start`; or the first record that is at fault.
fn go_on(
    l: LabelSettings,
    s: &[u8],
    n: usize,
    first: u32,
    start: Run,
    begun: Both<bool>,
) -> Result<Summary, Refusal>
    requires { Begun l first start }
    ensures { result ≡ onwards l first (first + 1) 1 (Track.One (toned begun.loss start)) (Track.One (toned begun.composite start)) (reads_from (n - 1) s.now 1) }
{
    // written out: what a function gives is known by an equation, which the proofs above would have to carry
    let by = Lengths {
        n: l.n as u32,
        p: l.p as u32,
    };
    let mut loss = Track::Nothing;
    let mut composite = Track::Nothing;
    let mut segment = start;
    let mut high = begun;
    // counted beside `k`: it goes on as `after`
    let mut next = first + 1;
    for k in 1..n {
        let so_far = loss;
        if let Track::Many(loss_first, loss_middle, loss_last) = so_far {
            if let Track::Many(composite_first, composite_middle, composite_last) = composite {
                let held = Both {
                    loss: Several {
                        first: loss_first,
                        middle: loss_middle,
                        last: loss_last,
                    },
                    composite: Several {
                        first: composite_first,
                        middle: composite_middle,
                        last: composite_last,
                    },
                };
                return go_on_several(l, s, n, first, held, segment, high, next, k);
            }
        }
        // `let .. else`: so document 01 has each record read taken apart.
        let Some(v) = intervals::read_at(s, k) else {
            return Err(Fault::Field.at(k as u64));
        };
        if v.number != next {
            return Err(Fault::Order.at(k as u64));
        }
        let x = run_of(true, v);
        let m = marks::marks(l, v);
        if (m.loss == high.loss) & (m.composite == high.composite) {
            segment = run::glue(by.p, segment, x);
        } else {
            loss = tracks::push(by, loss, toned(high.loss, segment));
            composite = tracks::push(by, composite, toned(high.composite, segment));
            segment = x;
            high = m;
        }
        next += 1;
    }
    Ok(Summary {
        first,
        after: next,
        label: l,
        loss: tracks::push(by, loss, toned(high.loss, segment)),
        composite: tracks::push(by, composite, toned(high.composite, segment)),
    })
}

// The summary of the records of `s`, or the first record that is at fault.
pub fn gather(l: LabelSettings, s: &[u8], first: u32) -> Result<Summary, Refusal>
    requires { (label_meets l ≡ true) × (first ≤ intervals) }
    ensures { result ≡ gathered l first s.now }
{
    let n = s.len() / 48;
    if n == 0 {
        return Ok(Summary {
            first,
            after: first,
            label: l,
            loss: Track::Nothing,
            composite: Track::Nothing,
        });
    }
    // `let .. else`: so document 01 has each record read taken apart.
    let Some(v) = intervals::read_at(s, 0) else {
        return Err(Fault::Field.at(0));
    };
    if v.number != first {
        return Err(Fault::Order.at(0));
    }
    go_on(l, s, n, first, run_of(true, v), marks::marks(l, v))
}
