// What stands above the summaries sees of them: a valid one, its numbers and its label settings, and the report of the middle of three.
#![tactic(auto)]

ghost use Rattle.std.specs.Prelude.{◌≡◌};
ghost use Rattle.periods.specs.Stretches.{stretch_of, first_of, after_of, label_of, period_of, Known};
ghost use Rattle.periods.specs.Between.{between, BetweenFits};

use runs::run::Lengths;
use settings::LabelSettings;
use summaries::Summary;
use tallies::{ByLabel, Period, Totals};
use tracks::Track;

// A valid summary. Those above read its numbers and label settings, and hand the rest on.
#[derive(Clone, Copy)]
pub struct Stretch {
    pub held: Summary,
}

// The summary in `s`, if it is 1,024 bytes and meets every rule.
#[tactic(auto, using(crate::specs::Stretches::stretch_held))]
pub fn read(s: &[u8]) -> Option<Stretch>
    ensures { result ≡ stretch_of s.now }
{
    // `let .. else`: so document 01 has each record read taken apart.
    let Some(held) = summaries::read(s) else {
        return None;
    };
    Some(Stretch { held })
}

// The number of its first interval.
#[tactic(auto, using(crate::specs::Stretches::first_held))]
pub fn first(s: Stretch) -> u32
    ensures { result ≡ first_of s }
{
    s.held.first
}

// The number after its last.
#[tactic(auto, using(crate::specs::Stretches::after_held))]
pub fn after(s: Stretch) -> u32
    ensures { result ≡ after_of s }
{
    s.held.after
}

// Its label settings.
#[tactic(auto, using(crate::specs::Stretches::label_held))]
pub fn label(s: Stretch) -> LabelSettings
    ensures { result ≡ label_of s }
{
    s.held.label
}

// The tally of the middle one of three tracks, by the labels of all.
#[tactic(auto, using(crate::proofs::Fits::right_fits, crate::proofs::Fits::all_fits), unfolding(crate::specs::Between::between))]
fn between_of(by: Lengths, a: Track, b: Track, c: Track) -> ByLabel<Totals>
    requires { BetweenFits by.n by.p a b c }
    ensures { result ≡ between by.n by.p a b c }
{
    let known = tracks::join(by, tracks::quiet(a), b);
    tracks::whole(by, tracks::join(by, known, tracks::quiet(c)))
}

// The report of the middle one of three.
#[tactic(auto, using(crate::specs::Stretches::period_held))]
pub fn period(left: Stretch, middle: Stretch, right: Stretch) -> Period
    requires { Known left middle right }
    ensures { result ≡ period_of left middle right }
{
    let a = left.held;
    let b = middle.held;
    let c = right.held;
    // written out: what a function gives is known by an equation, which the proofs above would have to carry
    let by = Lengths {
        n: b.label.n as u32,
        p: b.label.p as u32,
    };
    // locals, as a part of a struct that is handed on where it stands is copied once more
    let loss_a = a.loss;
    let loss_b = b.loss;
    let loss_c = c.loss;
    let composite_a = a.composite;
    let composite_b = b.composite;
    let composite_c = c.composite;
    let length = b.after - b.first;
    let loss = between_of(by, loss_a, loss_b, loss_c);
    let composite = between_of(by, composite_a, composite_b, composite_c);
    Period {
        length,
        maintenance: length - tracks::count_in(loss_b),
        loss,
        composite: composite.map(|t| t.count),
    }
}
