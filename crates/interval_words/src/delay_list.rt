// Percentile delay and range of a list of delays.
ghost use Rattle.std.specs.Prelude.{◌≡◌};
ghost use Rattle.interval_words.specs.DelayList.{answer_words, delays_outcome, Answers};

use delays::Figures;
use numbers::refusal::Fault;
use words::{word, written};

// How many words the answers take.
const ANSWERS: usize = 4;

// The words of the answers.
#[tactic(auto, using(crate::proofs::Delayed::told))]
fn words_of(f: Figures) -> [u64; 4]
    ensures { result ≡ answer_words f }
{
    [
        f.percentile as u64,
        f.range as u64,
        f.percentile_met as u64,
        f.range_met as u64,
    ]
}

// The answers are the percentile delay, the range, and the verdict of each.
#[tactic(auto, using(delays::proofs::Judged::refused_place), unfolding(crate::specs::DelayList::delays_outcome, delays::specs::Outcome::outcome, numbers::specs::Limits::delays))]
pub fn mip_delays(settings: &[u8], delays: &[u32], answers: &mut [u64]) -> u64
    ensures { Answers (delays_outcome settings.now delays.now answers.old) answers.old result answers.new }
{
    // `let .. else`: so document 01 has each record read taken apart.
    let Some(_) = settings::read(settings) else {
        return word::word(Fault::Settings.at(0));
    };
    if answers.len() < ANSWERS {
        return word::word(Fault::Room.at(0));
    }
    match delays::delays(settings, delays) {
        Err(r) => word::word(r),
        Ok(f) => {
            written::put(words_of(f), answers);
            0
        }
    }
}
