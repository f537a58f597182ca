// What the C interface does of summaries: each function answers 0, or its refusal as one word; a refusal writes nothing.
#![tactic(auto)]

ghost use Rattle.summary_words.specs.SummaryList.{SummaryLeft, JoinLeft};

use words::word;

// The summary of the records from the number `first` on is written into 1,024 bytes of `out` from `at` on.
pub fn mip_summary(settings: &[u8], first: u64, intervals: &[u8], out: &mut [u8], at: usize) -> u64
    ensures { SummaryLeft settings.now first intervals.now out.old at result out.new }
{
    match making::summary(settings, first, intervals, out, at) {
        Ok(()) => 0,
        Err(r) => word::word(r),
    }
}

// The summary of two adjoining stretches is written into 1,024 bytes of `out` from `at` on.
pub fn mip_join(left: &[u8], right: &[u8], out: &mut [u8], at: usize) -> u64
    ensures { JoinLeft left.now right.now out.old at result out.new }
{
    match joining::join(left, right, out, at) {
        Ok(()) => 0,
        Err(r) => word::word(r),
    }
}
