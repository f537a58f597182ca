// Three adjoining summaries, the first from 0, and the report of the middle one.
#![tactic(auto)]

ghost use Rattle.std.specs.Prelude.{◌≡◌, ◌≤◌, eqb};
ghost use Rattle.settings.specs.Settings.{same_label};
ghost use Rattle.periods.specs.Stretches.{first_of, after_of, label_of, ThreeRead};
ghost use Rattle.reports.specs.Three.{summary_at, suits, judged_three, three_at, report_of, places};

use numbers::many;
use numbers::refusal::{Fault, Refusal};
use periods::Stretch;
use settings::LabelSettings;
use tallies::Period;

// Whether a summary has the label settings wanted, where any are.
#[tactic(auto, using(settings::proofs::SettingsRecord::derived_same))]
fn suited(wanted: Option<LabelSettings>, a: Stretch) -> bool
    ensures { result ≡ suits wanted (label_of a) }
{
    match wanted {
        None => true,
        Some(l) => periods::label(a) == l,
    }
}

// Whether two summaries have the same label settings: a function, so that the law of `==` is named once.
#[tactic(auto, using(settings::proofs::SettingsRecord::derived_same))]
fn alike(a: Stretch, b: Stretch) -> bool
    ensures { result ≡ same_label (label_of a) (label_of b) }
{
    periods::label(a) == periods::label(b)
}

// Whether the first number is 0.
fn from_zero(a: Stretch) -> bool
    ensures { result ≡ eqb (first_of a) 0 }
{
    periods::first(a) == 0
}

// Whether the second starts where the first ends.
fn adjoining(a: Stretch, b: Stretch) -> bool
    ensures { result ≡ eqb (after_of a) (first_of b) }
{
    periods::after(a) == periods::first(b)
}

// The report of three valid summaries, the first of which stands at `base`: label settings first, then numbers.
#[tactic(auto, unfolding(crate::specs::Three::judged_three, crate::specs::Three::unless, numbers::specs::Limits::pairs))]
fn judge(
    wanted: Option<LabelSettings>,
    base: usize,
    a: Stretch,
    b: Stretch,
    c: Stretch,
) -> Result<Period, Refusal>
    requires { (base ≤ places) × ThreeRead a b c }
    ensures { result ≡ judged_three wanted base a b c }
{
    let first = base as u64;
    if !suited(wanted, a) {
        return Err(Fault::Mismatch.at(first));
    }
    if !alike(a, b) {
        return Err(Fault::Mismatch.at(first + 1));
    }
    if !alike(b, c) {
        return Err(Fault::Mismatch.at(first + 2));
    }
    if !from_zero(a) {
        return Err(Fault::Order.at(first));
    }
    if !adjoining(a, b) {
        return Err(Fault::Order.at(first + 1));
    }
    if !adjoining(b, c) {
        return Err(Fault::Order.at(first + 2));
    }
    Ok(periods::period(a, b, c))
}

// The summary that is the `k`-th record of `s`, if it is valid.
fn summary_at(s: &[u8], k: usize) -> Option<Stretch>
    ensures { result ≡ summary_at s.now k }
{
    periods::read(many::part(s, 1024, k))
}

// The report of the three summaries from `base` on, under the label settings that are wanted, or under any.
#[tactic(auto, unfolding(crate::specs::Three::three_at, numbers::specs::Limits::pairs))]
pub fn three_at(wanted: Option<LabelSettings>, s: &[u8], base: usize) -> Result<Period, Refusal>
    requires { base ≤ places }
    ensures { result ≡ three_at wanted s.now base }
{
    let first = base as u64;
    // `let .. else`: so document 01 has each record read taken apart.
    let Some(a) = summary_at(s, base) else {
        return Err(Fault::Field.at(first));
    };
    let Some(b) = summary_at(s, base + 1) else {
        return Err(Fault::Field.at(first + 1));
    };
    let Some(c) = summary_at(s, base + 2) else {
        return Err(Fault::Field.at(first + 2));
    };
    judge(wanted, base, a, b, c)
}

// The report of the middle one of three adjoining summaries, the first from 0.
#[tactic(auto, unfolding(crate::specs::Three::report_of, crate::specs::Three::unless))]
pub fn report(summaries: &[u8]) -> Result<Period, Refusal>
    ensures { result ≡ report_of summaries.now }
{
    if summaries.len() != 3072 {
        return Err(Fault::Length.at(0));
    }
    three_at(None, summaries, 0)
}
