// The running evaluator as words that the caller keeps: label settings, number fed, and label and number pending of each track.
#![tactic(auto)]

ghost use Rattle.std.specs.Prelude.{◌≡◌, length, ◌≤◌};
ghost use Rattle.evaluator_words.specs.Running.{evaluator_words, settled_words, evaluator_in, StartLeft, StepLeft};

use evaluator::{Answer, Evaluator};
use numbers::refusal::Fault;
use words::{word, written};

// How many words an evaluator takes, and what a step settled.
const EVALUATOR: usize = 13;

const SETTLED: usize = 4;

// The words of an evaluator: the label settings, and what was fed behind them.
fn words_of(e: Evaluator) -> [u64; 13]
    ensures { result ≡ evaluator_words e }
{
    [
        e.length,
        e.n,
        e.p,
        e.weights,
        e.c,
        e.u,
        e.dl,
        e.jt,
        e.fed,
        e.loss_label,
        e.loss_pending,
        e.composite_label,
        e.composite_pending,
    ]
}

// The words of what a step settled.
fn settled_by(a: Answer) -> [u64; 4]
    ensures { result ≡ settled_words a }
{
    [
        a.loss.count,
        a.loss.label,
        a.composite.count,
        a.composite.label,
    ]
}

// The evaluator in the first words.
#[tactic(auto, unfolding(crate::specs::Running::evaluator_in))]
fn read(words: &[u64]) -> Evaluator
    requires { 13 ≤ length words.now }
    ensures { result ≡ evaluator_in words.now }
{
    Evaluator {
        length: words[0],
        n: words[1],
        p: words[2],
        weights: words[3],
        c: words[4],
        u: words[5],
        dl: words[6],
        jt: words[7],
        fed: words[8],
        loss_label: words[9],
        loss_pending: words[10],
        composite_label: words[11],
        composite_pending: words[12],
    }
}

// An evaluator with nothing fed.
#[tactic(auto, using(evaluator::proofs::Places::start_place), unfolding(crate::specs::Running::start_told))]
pub fn mip_start(settings: &[u8], evaluator: &mut [u64]) -> u64
    ensures { StartLeft settings.now evaluator.old result evaluator.new }
{
    match evaluator::start(settings) {
        Err(r) => word::word(r),
        Ok(e) => {
            if evaluator.len() < EVALUATOR {
                return word::word(Fault::Room.at(0));
            }
            written::put(words_of(e), evaluator);
            0
        }
    }
}

// The next interval record: the evaluator is altered where it stands.
#[tactic(auto, using(evaluator::proofs::Places::step_place), unfolding(crate::specs::Running::step_told))]
pub fn mip_step(evaluator: &mut [u64], interval: &[u8], settled: &mut [u64]) -> u64
    ensures { StepLeft evaluator.old interval.now settled.old result evaluator.new settled.new }
{
    if interval.len() != 48 {
        return word::word(Fault::Length.at(0));
    }
    if evaluator.len() < EVALUATOR {
        return word::word(Fault::Length.at(0));
    }
    if settled.len() < SETTLED {
        return word::word(Fault::Room.at(0));
    }
    match evaluator::step(read(evaluator), interval) {
        Err(r) => word::word(r),
        Ok((next, answer)) => {
            written::put(words_of(next), evaluator);
            written::put(settled_by(answer), settled);
            0
        }
    }
}
