// Percentile delay and range over a lent list of delays. The list is read, and neither sorted, copied nor changed.
#![tactic(auto)]

ghost use Rattle.std.specs.Prelude.{◌≡◌, ◌<◌, ◌≤◌, Ok};
ghost use Rattle.numbers.specs.Limits.{delays, million};
ghost use Rattle.percentile.specs.Percentile.{place_above};
ghost use Rattle.delays.specs.Outcome.{Rank, answered, judged, outcome};

use numbers::limits;
use numbers::refusal::{Fault, Refusal};
use percentile::few;
use settings::Settings;

// The percentile delay and the range, in ns, and whether each is at or below its objective.
#[derive(Clone, Copy)]
pub struct Figures {
    pub percentile: u32,
    pub range: u32,
    pub percentile_met: bool,
    pub range_met: bool,
}

// The place of the first delay above `largest`, or the length where none is.
fn place_above(list: &[u32], largest: u32) -> usize
    ensures { result ≡ place_above largest list.now }
{
    list.iter().position(|&x| largest < x).unwrap_or(list.len())
}

// How many delays must be at or below the percentile: the least k with pr × n ≤ 1,000,000 × k.
#[tactic(auto, using(crate::proofs::Rounding::rank_meets, crate::proofs::Rounding::product_fits), unfolding(numbers::specs::Limits::delays))]
fn rank(pr: u32, n: usize) -> u32
    requires { (1 ≤ pr) × (pr ≤ million) × (0 < n) × (n ≤ delays) }
    ensures { Rank pr n result }
{
    let whole = limits::MILLION as usize;
    ((pr as usize * n + (whole - 1)) / whole) as u32
}

// The answer, judged by the settings.
fn answer(v: Settings, percentile: u32, range: u32) -> Figures
    ensures { Ok result ≡ answered v percentile range }
{
    Figures {
        percentile,
        range,
        percentile_met: percentile <= v.delay,
        range_met: range <= v.range,
    }
}

// What valid settings say of a list.
#[tactic(auto, using(crate::proofs::Judged::judged_steps), unfolding(numbers::specs::Limits::delays, numbers::specs::Limits::largest_delay))]
fn judge(v: Settings, list: &[u32]) -> Result<Figures, Refusal>
    requires { (1 ≤ v.percentile) × (v.percentile ≤ million) }
    ensures { result ≡ judged v list.now }
{
    if limits::DELAYS < list.len() {
        return Err(Fault::Full.at(0));
    }
    if list.len() == 0 {
        return Ok(answer(v, 0, 0));
    }
    let k = rank(v.percentile, list.len());
    let p = few::choose(list, k);
    let s = few::survey(list, limits::LARGEST_DELAY, p);
    if (s.within as usize) < list.len() {
        let at = place_above(list, limits::LARGEST_DELAY);
        return Err(Fault::Field.at(at as u64));
    }
    let d = few::ranked(list, p, s, k);
    Ok(answer(v, d, d - s.least))
}

// The percentile delay and the range of a list of delays, or the refusal: SETTINGS; FULL over 1,000,000 delays; FIELD at the
// first delay above the largest.
#[tactic(auto, using(settings::proofs::SettingsRecord::settings_valid), unfolding(crate::specs::Outcome::outcome))]
pub fn delays(settings: &[u8], list: &[u32]) -> Result<Figures, Refusal>
    ensures { result ≡ outcome settings.now list.now }
{
    // `let .. else`: so document 01 has each record read taken apart.
    let Some(v) = settings::read(settings) else {
        return Err(Fault::Settings.at(0));
    };
    judge(v, list)
}
