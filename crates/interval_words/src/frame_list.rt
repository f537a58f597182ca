// From frames to one interval.
ghost use Rattle.interval_words.specs.FrameList.{IntervalLeft};

use words::word;

// The interval's record is written into 48 bytes of `out` from `at` on.
pub fn mip_interval(
    settings: &[u8],
    frames: &[u8],
    number: u64,
    maintenance: u64,
    out: &mut [u8],
    at: usize,
) -> u64
    ensures { IntervalLeft settings.now frames.now number maintenance out.old at result out.new }
{
    match measure::interval(settings, frames, number, maintenance, out, at) {
        Ok(()) => 0,
        Err(r) => word::word(r),
    }
}
