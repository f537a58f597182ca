// The C interface. Each function answers 0, or its refusal as one word; a refusal writes nothing. What each does stands in the crates below, and so do the
// definitions that the contracts cite.
#![tactic(auto)]

ghost use Rattle.interval_words.specs.DelayList.{delays_outcome, Answers};
ghost use Rattle.interval_words.specs.FrameList.{IntervalLeft};
ghost use Rattle.interval_words.specs.LabelList.{LabelsLeft};
ghost use Rattle.evaluator_words.specs.Running.{StartLeft, StepLeft};
ghost use Rattle.report_words.specs.ReportList.{ReportLeft, VerdictsLeft};
ghost use Rattle.summary_words.specs.SummaryList.{SummaryLeft, JoinLeft};

use interval_words::{delay_list, frame_list, label_list};

// Frames to one interval: its record is written into 48 bytes of `out` from `at` on.
#[unsafe(no_mangle)]
pub extern "C" fn mip_interval(
    settings: &[u8],
    frames: &[u8],
    number: u64,
    maintenance: u64,
    out: &mut [u8],
    at: usize,
) -> u64
    ensures { IntervalLeft settings.now frames.now number maintenance out.old at result out.new }
{
    frame_list::mip_interval(settings, frames, number, maintenance, out, at)
}

// The label bytes of a stretch from 0: two for each interval are written into `out` from `at` on.
#[unsafe(no_mangle)]
pub extern "C" fn mip_labels(settings: &[u8], intervals: &[u8], out: &mut [u8], at: usize) -> u64
    ensures { LabelsLeft settings.now intervals.now out.old at result out.new }
{
    label_list::mip_labels(settings, intervals, out, at)
}

// Percentile delay, range, and the verdict of each.
#[unsafe(no_mangle)]
pub extern "C" fn mip_delays(settings: &[u8], delays: &[u32], answers: &mut [u64]) -> u64
    ensures { Answers (delays_outcome settings.now delays.now answers.old) answers.old result answers.new }
{
    delay_list::mip_delays(settings, delays, answers)
}

// An evaluator with nothing fed.
#[unsafe(no_mangle)]
pub extern "C" fn mip_start(settings: &[u8], evaluator: &mut [u64]) -> u64
    ensures { StartLeft settings.now evaluator.old result evaluator.new }
{
    evaluator_words::mip_start(settings, evaluator)
}

// The next interval record: the evaluator is altered where it stands.
#[unsafe(no_mangle)]
pub extern "C" fn mip_step(evaluator: &mut [u64], interval: &[u8], settled: &mut [u64]) -> u64
    ensures { StepLeft evaluator.old interval.now settled.old result evaluator.new settled.new }
{
    evaluator_words::mip_step(evaluator, interval, settled)
}

// The summary of the records from the number `first` on is written into 1,024 bytes of `out` from `at` on.
#[unsafe(no_mangle)]
pub extern "C" fn mip_summary(
    settings: &[u8],
    first: u64,
    intervals: &[u8],
    out: &mut [u8],
    at: usize,
) -> u64
    ensures { SummaryLeft settings.now first intervals.now out.old at result out.new }
{
    summary_words::mip_summary(settings, first, intervals, out, at)
}

// The summary of two adjoining stretches is written into 1,024 bytes of `out` from `at` on.
#[unsafe(no_mangle)]
pub extern "C" fn mip_join(left: &[u8], right: &[u8], out: &mut [u8], at: usize) -> u64
    ensures { JoinLeft left.now right.now out.old at result out.new }
{
    summary_words::mip_join(left, right, out, at)
}

// The report of the middle one of three adjoining summaries.
#[unsafe(no_mangle)]
pub extern "C" fn mip_report(summaries: &[u8], figures: &mut [u64]) -> u64
    ensures { ReportLeft summaries.now figures.old result figures.new }
{
    report_words::mip_report(summaries, figures)
}

// The verdicts of a set of pairs, three summaries each.
#[unsafe(no_mangle)]
pub extern "C" fn mip_verdicts(
    settings: &[u8],
    pairs: u64,
    summaries: &[u8],
    answers: &mut [u64],
) -> u64
    ensures { VerdictsLeft settings.now pairs summaries.now answers.old result answers.new }
{
    report_words::mip_verdicts(settings, pairs, summaries, answers)
}
