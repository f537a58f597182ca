// Verdicts of a report against the objectives of settings, and of a set of reports.
#![tactic(auto)]

ghost use Rattle.std.specs.Prelude.{◌≡◌, [], ◌∷◌, ◌+◌, ◌≤◌, Some};
ghost use Rattle.numbers.specs.Limits.{intervals, million, largest_delay};
ghost use Rattle.verdicts.specs.Verdicts.{verdict_number, verdict_text, common, enough, loss_met, mean_met, met_by, taken_as, verdicts_of, Fits, Objectives, Judgeable};
ghost use Rattle.verdicts.specs.Sets.{of_set, of_sets};

use numbers::limits;
use settings::Settings;
use std::fmt;
use tallies::Period;

// A verdict. The worst stands first, so that the least of several is the verdict of all.
#[derive(Clone, Copy, PartialEq, Eq, PartialOrd, Ord)]
pub enum Verdict {
    NotMet,
    NotYet,
    Met,
}

// The number of a verdict.
impl From<Verdict> for u64 {
    ghost from_gives = { λ v n. n ≡ verdict_number v };

    fn from(v: Verdict) -> u64 {
        match v {
            Verdict::NotMet => 0,
            Verdict::Met => 1,
            Verdict::NotYet => 2,
        }
    }
}

// A verdict in words.
impl fmt::Display for Verdict {
    ghost output = { λ v. Some (verdict_text v) };

    fn fmt<W: fmt::Write>(&self, f: &mut fmt::Formatter<W>) -> fmt::Result {
        f.write_str(match self {
            Verdict::NotMet => "not met",
            Verdict::Met => "met",
            Verdict::NotYet => "not yet",
        })
    }
}

// The figures of a report that the objectives are tested by. That they fit is the word `Fits` of the contracts, and no invariant of this type: the promise of
// `verdicts_of` speaks of `Fits` of figures that no code has made yet, so an invariant would say the same once more.
#[derive(Clone, Copy)]
pub struct Asked {
    pub available: u32,
    pub unavailable: u32,
    pub acceptable: u32,
    pub unacceptable: u32,
    pub high: u32,
    pub runs: u32,
    pub sent: u64,
    pub lost: u64,
    pub sum: u64,
}

// A value for each objective.
#[derive(Clone, Copy)]
pub struct PerObjective<T> {
    pub availability: T,
    pub composite: T,
    pub loss: T,
    pub mean: T,
    pub high: T,
    pub runs: T,
}

// A verdict for each objective.
pub type Verdicts = PerObjective<Verdict>;

impl<T> PerObjective<T> {
    // What `f` makes of the two values of each objective.
    pub fn zip_with<U, F: Fn(T, T) -> U>(self, other: PerObjective<T>, f: F) -> PerObjective<U>
        requires { F.IsAlwaysCallable f }
        ensures availability { F.post f self.availability other.availability result.availability }
        ensures composite { F.post f self.composite other.composite result.composite }
        ensures loss { F.post f self.loss other.loss result.loss }
        ensures mean { F.post f self.mean other.mean result.mean }
        ensures high { F.post f self.high other.high result.high }
        ensures runs { F.post f self.runs other.runs result.runs }
    {
        PerObjective {
            availability: f(self.availability, other.availability),
            composite: f(self.composite, other.composite),
            loss: f(self.loss, other.loss),
            mean: f(self.mean, other.mean),
            high: f(self.high, other.high),
            runs: f(self.runs, other.runs),
        }
    }
}

// What is said of an objective that is met, or not, with the undecided intervals taken one way and the other.
#[tactic(auto, unfolding(crate::specs::Verdicts::common))]
fn verdict_of(a: bool, b: bool) -> Verdict
    ensures { result ≡ common a b }
{
    match (a, b) {
        (true, true) => Verdict::Met,
        (false, false) => Verdict::NotMet,
        _ => Verdict::NotYet,
    }
}

// Whether the good ones are so many parts per million of all.
#[tactic(auto, unfolding(crate::specs::Verdicts::enough, numbers::specs::Limits::intervals, numbers::specs::Limits::million))]
fn is_enough(objective: u32, good: u32, bad: u32) -> bool
    requires { good + bad ≤ intervals }
    ensures { result ≡ enough objective good bad }
{
    (objective as u64) * ((good + bad) as u64) <= (good as u64) * (limits::MILLION as u64)
}

// Whether the loss is at or below its objective.
#[tactic(auto, unfolding(crate::specs::Verdicts::loss_met, numbers::specs::Limits::intervals, numbers::specs::Limits::frames, numbers::specs::Limits::million))]
fn loss_met(objective: u32, a: Asked) -> bool
    requires { (objective ≤ million) × Fits a }
    ensures { result ≡ loss_met objective a }
{
    a.lost * (limits::MILLION as u64) <= (objective as u64) * a.sent
}

// Whether the mean delay is at or below its objective.
#[tactic(auto, unfolding(crate::specs::Verdicts::mean_met, numbers::specs::Limits::intervals, numbers::specs::Limits::frames, numbers::specs::Limits::largest_delay))]
fn mean_met(objective: u32, a: Asked) -> bool
    requires { (objective ≤ largest_delay) × Fits a }
    ensures { result ≡ mean_met objective a }
{
    a.sum <= (objective as u64) * (a.sent - a.lost)
}

// Which objectives are met by these figures.
#[tactic(auto, unfolding(crate::specs::Verdicts::met_by))]
fn met_by(v: Settings, a: Asked) -> PerObjective<bool>
    requires { Objectives v × Fits a }
    ensures { result ≡ met_by v a }
{
    PerObjective {
        availability: is_enough(v.availability, a.available, a.unavailable),
        composite: is_enough(v.composite, a.acceptable, a.unacceptable),
        loss: loss_met(v.loss, a),
        mean: mean_met(v.mean, a),
        high: a.high <= v.high,
        runs: a.runs <= v.runs,
    }
}

// The figures of a report, its undecided intervals taken as available, or as unavailable.
#[tactic(auto, unfolding(crate::specs::Verdicts::taken_as, numbers::specs::Limits::intervals, numbers::specs::Limits::frames, numbers::specs::Limits::largest_delay))]
fn taken_as(unavailable: bool, r: Period) -> Asked
    requires { Fits (taken_as unavailable r) }
    ensures { result ≡ taken_as unavailable r }
{
    let l = r.loss;
    let c = r.composite;
    if unavailable {
        return Asked {
            available: l.available.count,
            unavailable: l.unavailable + l.undecided.count,
            acceptable: c.available,
            unacceptable: c.unavailable + c.undecided,
            high: l.available.high,
            runs: l.available.runs,
            sent: l.available.sent,
            lost: l.available.lost,
            sum: l.available.sum,
        };
    }
    Asked {
        available: l.available.count + l.undecided.count,
        unavailable: l.unavailable,
        acceptable: c.available + c.undecided,
        unacceptable: c.unavailable,
        high: l.available.high + l.undecided.high,
        runs: l.available.runs + l.undecided.runs,
        sent: l.available.sent + l.undecided.sent,
        lost: l.available.lost + l.undecided.lost,
        sum: l.available.sum + l.undecided.sum,
    }
}

// The verdicts of a report: what the tests have in common with its undecided intervals taken either way.
#[tactic(auto, unfolding(crate::specs::Verdicts::agreed, crate::specs::Verdicts::verdicts_of))]
pub fn verdicts_of(v: Settings, r: Period) -> Verdicts
    requires { Judgeable v r }
    ensures { result ≡ verdicts_of v r }
{
    met_by(v, taken_as(false, r)).zip_with(met_by(v, taken_as(true, r)), verdict_of)
}

// The verdict of two together.
#[tactic(auto, unfolding(crate::specs::Sets::any, crate::specs::Sets::of_set))]
pub fn worse(a: Verdict, b: Verdict) -> Verdict
    ensures { result ≡ of_set (a ∷ b ∷ []) }
{
    a.min(b)
}

// The verdicts of none.
#[tactic(auto, unfolding(crate::specs::Sets::any, crate::specs::Sets::of_set, crate::specs::Sets::of_sets))]
pub fn nothing() -> Verdicts
    ensures { result ≡ of_sets [] }
{
    PerObjective {
        availability: Verdict::Met,
        composite: Verdict::Met,
        loss: Verdict::Met,
        mean: Verdict::Met,
        high: Verdict::Met,
        runs: Verdict::Met,
    }
}

// The verdicts of two together, objective by objective.
#[tactic(auto, unfolding(crate::specs::Sets::of_sets))]
pub fn both(a: Verdicts, b: Verdicts) -> Verdicts
    ensures { result ≡ of_sets (a ∷ b ∷ []) }
{
    a.zip_with(b, worse)
}
