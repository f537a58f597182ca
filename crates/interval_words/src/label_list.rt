// The label bytes of a stretch of intervals from 0.
ghost use Rattle.interval_words.specs.LabelList.{LabelsLeft};

use labels::stretch;
use words::word;

// Two bytes for each interval are written into `out` from `at` on.
pub fn mip_labels(settings: &[u8], intervals: &[u8], out: &mut [u8], at: usize) -> u64
    ensures { LabelsLeft settings.now intervals.now out.old at result out.new }
{
    match stretch::labels(settings, intervals, out, at) {
        Ok(()) => 0,
        Err(r) => word::word(r),
    }
}
