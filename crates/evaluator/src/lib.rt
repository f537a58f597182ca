// The running evaluator of a circuit, by value: a few words that the collector keeps, and the step that feeds it the next interval.
#![tactic(auto)]

ghost use Rattle.std.specs.Prelude.{◌≡◌, true, ◌<◌};
ghost use Rattle.numbers.specs.Limits.{intervals};
ghost use Rattle.settings.specs.Settings.{label_meets};
ghost use Rattle.evaluator.specs.Evaluators.{held, word_of, which, start_of, step_of, label_read, fits_words, narrow_of, held_read, fed_with, answer_of, moved_to, moved_of};

use intervals::Interval;
use labels::marks;
use numbers::limits;
use numbers::refusal::{Fault, Refusal};
use rule::{Both, Track};
use settings::LabelSettings;

// Label settings, the number fed, and each track's label (1 available, 0 not) and number pending. Any words at all may stand here.
#[derive(Clone, Copy)]
pub struct Evaluator {
    pub length: u64,
    pub n: u64,
    pub p: u64,
    pub weights: u64,
    pub c: u64,
    pub u: u64,
    pub dl: u64,
    pub jt: u64,
    pub fed: u64,
    pub loss_label: u64,
    pub loss_pending: u64,
    pub composite_label: u64,
    pub composite_pending: u64,
}

// What a step settled on a track: how many labels, and which (1 available, 0 unavailable, 2 when none): the words that the C interface
// gives (`settled_words`).
#[derive(Clone, Copy)]
pub struct Settled {
    pub count: u64,
    pub label: u64,
}

// What a step settled on both.
pub type Answer = Both<Settled>;

// The words of valid label settings, a number fed and two tracks.
fn held_by(l: LabelSettings, fed: u64, loss: Track, composite: Track) -> Evaluator
    ensures { result ≡ held l fed loss composite }
{
    Evaluator {
        length: l.length as u64,
        n: l.n as u64,
        p: l.p as u64,
        weights: l.weights as u64,
        c: l.c as u64,
        u: l.u as u64,
        dl: l.dl as u64,
        jt: l.jt as u64,
        fed,
        loss_label: word_of(loss.label),
        loss_pending: loss.pending,
        composite_label: word_of(composite.label),
        composite_pending: composite.pending,
    }
}

// A label as a word of the C interface. A label is a `bool` here, so it has no `From` of its own.
fn word_of(label: bool) -> u64
    ensures { result ≡ word_of label }
{
    if label { 0 } else { 1 }
}

// What the words hold, where they are valid.
#[derive(Clone, Copy)]
pub struct Held {
    pub label: LabelSettings,
    pub loss: Track,
    pub composite: Track,
}

// Whether the words of the label settings fit its fields. One test for all: `try_from` on each word would be eight ways out with one law.
#[tactic(auto, unfolding(crate::specs::Evaluators::fits_words, crate::specs::Evaluators::fit_rules))]
fn fits(e: Evaluator) -> bool
    ensures { result ≡ fits_words e }
{
    (e.length < 4_294_967_296)
        & (e.n < 256)
        & (e.p < 256)
        & (e.weights < 256)
        & (e.c < 4_294_967_296)
        & (e.u < 4_294_967_296)
        & (e.dl < 4_294_967_296)
        & (e.jt < 4_294_967_296)
}

// The words of the label settings, cut down to its fields.
#[tactic(auto, unfolding(crate::specs::Evaluators::narrow_of))]
fn narrow(e: Evaluator) -> LabelSettings
    ensures { result ≡ narrow_of e }
{
    LabelSettings {
        length: (e.length % 4_294_967_296) as u32,
        n: (e.n % 256) as u8,
        p: (e.p % 256) as u8,
        weights: (e.weights % 256) as u8,
        c: (e.c % 4_294_967_296) as u32,
        u: (e.u % 4_294_967_296) as u32,
        dl: (e.dl % 4_294_967_296) as u32,
        jt: (e.jt % 4_294_967_296) as u32,
    }
}

// The label settings in the words.
#[tactic(auto, using(crate::proofs::Words::narrow_same, crate::proofs::Words::meets_fits), unfolding(crate::specs::Evaluators::label_read))]
fn label_of(e: Evaluator) -> Option<LabelSettings>
    ensures { result ≡ label_read e }
{
    let l = narrow(e);
    if fits(e) & settings::label_meets(l) {
        return Some(l);
    }
    None
}

// All that the words hold.
#[tactic(auto, unfolding(crate::specs::Evaluators::held_read, crate::specs::Evaluators::evaluator_meets, crate::specs::Evaluators::evaluator_rules, crate::specs::Evaluators::label_read, numbers::specs::Limits::intervals))]
fn held_in(e: Evaluator) -> Option<Held>
    ensures { result ≡ held_read e }
{
    let label = label_of(e)?;
    let loss = Track {
        label: e.loss_label == 0,
        pending: e.loss_pending,
    };
    let composite = Track {
        label: e.composite_label == 0,
        pending: e.composite_pending,
    };
    if (e.fed <= limits::INTERVALS as u64)
        & (e.loss_label <= 1)
        & (e.composite_label <= 1)
        & rule::can_hold(e.n, e.fed, loss)
        & rule::can_hold(e.n, e.fed, composite)
    {
        return Some(Held {
            label,
            loss,
            composite,
        });
    }
    None
}

// What a step settled on a track whose mark is `mark`.
fn settled_by(count: u64, mark: bool) -> Settled
    ensures { result ≡ record { count = count; label = which count mark } }
{
    if count == 0 {
        return Settled { count, label: 2 };
    }
    Settled {
        count,
        label: word_of(mark),
    }
}

// The next interval fed to what an evaluator holds: the evaluator after it, and what it settled.
#[tactic(auto, unfolding(crate::specs::Evaluators::fed_with, crate::specs::Evaluators::answer_of, numbers::specs::Limits::intervals))]
fn feed(h: Held, fed: u64, v: Interval) -> (Evaluator, Answer)
    requires { (label_meets h.label ≡ true) × (fed < intervals) × (h.loss.pending < h.label.n) × (h.composite.pending < h.label.n) }
    ensures { result ≡ (fed_with h fed v, answer_of h v) }
{
    let l = h.label;
    let n = l.n as u64;
    let marks = marks::marks(l, v);
    let held = Both {
        loss: h.loss,
        composite: h.composite,
    };
    let turned = held.zip_with(marks, |t, mark| rule::advance(n, t, mark));
    let next = held_by(l, fed + 1, turned.loss.track, turned.composite.track);
    // by name, and no `zip_with`: the edit `count_invented` is of one of the two
    let answer = Both {
        loss: settled_by(turned.loss.count, marks.loss),
        composite: settled_by(turned.composite.count, marks.composite),
    };
    (next, answer)
}

// An evaluator with nothing fed.
#[tactic(auto, unfolding(crate::specs::Evaluators::start_of))]
pub fn start(s: &[u8]) -> Result<Evaluator, Refusal>
    ensures { result ≡ start_of s.now }
{
    // `let .. else`: so document 01 has each record read taken apart.
    let Some(v) = settings::read(s) else {
        return Err(Fault::Settings.at(0));
    };
    let t = Track {
        label: false,
        pending: 0,
    };
    Ok(held_by(v.label, 0, t, t))
}

// The next interval record: the evaluator after it and what it settled, or a refusal.
#[tactic(auto, unfolding(crate::specs::Evaluators::step_of, crate::specs::Evaluators::held_read))]
pub fn step(e: Evaluator, r: &[u8]) -> Result<(Evaluator, Answer), Refusal>
    ensures { result ≡ step_of e r.now }
{
    if r.len() != 48 {
        return Err(Fault::Length.at(0));
    }
    let h = held_in(e).ok_or(Fault::Field)?;
    // `let .. else`: so document 01 has each record read taken apart.
    let Some(v) = intervals::read(r) else {
        return Err(Fault::Field.at(0));
    };
    if v.number as u64 != e.fed {
        return Err(Fault::Order.at(0));
    }
    Ok(feed(h, e.fed, v))
}

// The step over an evaluator that the collector holds and lends: a refusal leaves it as it was.
pub fn step_in(e: &mut Evaluator, r: &[u8]) -> Result<Answer, Refusal>
    ensures { moved_to e.new result ≡ moved_of e.old r.now }
{
    let (next, answer) = step(*e, r)?;
    *e = next;
    Ok(answer)
}
