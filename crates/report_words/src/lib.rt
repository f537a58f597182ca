// What the C interface does of reports and verdicts: each function answers 0 and its words, or its refusal as one word; a refusal writes nothing.
#![tactic(auto)]

ghost use Rattle.std.specs.Prelude.{◌≡◌};
ghost use Rattle.numbers.specs.Refusals.{refusal};
ghost use Rattle.report_words.specs.ReportList.{figure_words, verdict_words, ReportLeft, VerdictsLeft};
ghost use Rattle.words.specs.Word.{word_of};

use numbers::limits;
use numbers::refusal::Fault;
use tallies::Period;
use verdicts::Verdicts;
use words::{word, written};

// How many words a report takes, and the verdicts.
const FIGURES: usize = 15;

const VERDICTS: usize = 6;

// The words of a report: its counts, the sums of its available intervals, and the counts of its composite track.
fn figures_of(r: Period) -> [u64; 15]
    ensures { result ≡ figure_words r }
{
    let t = r.loss.available;
    [
        r.length as u64,
        r.maintenance as u64,
        t.count as u64,
        r.loss.unavailable as u64,
        r.loss.undecided.count as u64,
        t.high as u64,
        t.runs as u64,
        t.sent,
        t.lost,
        t.sum,
        t.least as u64,
        t.most as u64,
        r.composite.available as u64,
        r.composite.unavailable as u64,
        r.composite.undecided as u64,
    ]
}

// The words of six verdicts.
fn words_of(v: Verdicts) -> [u64; 6]
    ensures { result ≡ verdict_words v }
{
    [
        u64::from(v.availability),
        u64::from(v.composite),
        u64::from(v.loss),
        u64::from(v.mean),
        u64::from(v.high),
        u64::from(v.runs),
    ]
}

// A refusal of this fault, at no record: seven ways out have one.
fn refused(fault: Fault) -> u64
    ensures { result ≡ word_of (refusal fault 0) }
{
    word::word(fault.at(0))
}

// The report of the middle one of three adjoining summaries.
#[tactic(auto, using(reports::proofs::Places::report_place), unfolding(crate::specs::ReportList::report_told, reports::specs::Three::report_of, reports::specs::Three::unless))]
pub fn mip_report(summaries: &[u8], figures: &mut [u64]) -> u64
    ensures { ReportLeft summaries.now figures.old result figures.new }
{
    if summaries.len() != 3072 {
        return refused(Fault::Length);
    }
    if figures.len() < FIGURES {
        return refused(Fault::Room);
    }
    match reports::report(summaries) {
        Err(r) => word::word(r),
        Ok(p) => {
            written::put(figures_of(p), figures);
            0
        }
    }
}

// The verdicts of a set of pairs, three summaries each. `sets::verdicts` makes the first four tests too: room is asked after them and before the records.
#[tactic(auto, using(sets::proofs::Places::verdicts_place), unfolding(crate::specs::ReportList::verdicts_told, sets::specs::Sets::judged_of, sets::specs::Sets::unless, numbers::specs::Limits::pairs))]
pub fn mip_verdicts(settings: &[u8], pairs: u64, summaries: &[u8], answers: &mut [u64]) -> u64
    ensures { VerdictsLeft settings.now pairs summaries.now answers.old result answers.new }
{
    // `let .. else`: so document 01 has each record read taken apart.
    let Some(_) = settings::read(settings) else {
        return refused(Fault::Settings);
    };
    if pairs < 1 {
        return refused(Fault::Pairs);
    }
    if limits::PAIRS < pairs {
        return refused(Fault::Pairs);
    }
    if summaries.len() != pairs as usize * 3072 {
        return refused(Fault::Length);
    }
    if answers.len() < VERDICTS {
        return refused(Fault::Room);
    }
    match sets::verdicts(settings, pairs, summaries) {
        Err(r) => word::word(r),
        Ok(v) => {
            written::put(words_of(v), answers);
            0
        }
    }
}
