// The delay of a given rank in two passes over a long list. A sample gives two delays that most likely stand close below and
// above it; one pass counts against both, and one collects the few delays between them. A sample can mislead and cost time,
// and nothing else: what the counts do not settle goes to `table::search`.
// A list and a rank in it go into `choose`, `ranked` and `search` as two parameters: a struct is no plainer, since it would be built at four places, and
// would state twice, at its field and where it is made, the clause that stands three times now.
ghost use Rattle.std.specs.Prelude.{◌≡◌, ℕ, ◌^◌, ◌<◌, ◌≤◌, length};
ghost use Rattle.percentile.specs.Percentile.{keep, how_many};
ghost use Rattle.percentile.specs.Ranks.{Ranked, Surveyed, Collected, Drawn, Chosen, inside};

use crate::table;

// Room for the delays between the pivots. A list of this length or less is searched directly.
const FEW: usize = 32_768;

// Delays in a sample.
const SAMPLE: usize = 16_384;
// Ranks of the sample on either side of the one sought: three standard deviations.
const MARGIN: u32 = 192;

// Two numbers against which all delays are counted.
#[derive(Clone, Copy)]
pub struct Pivots {
    pub lo: u32,
    pub hi: u32,
}

// What one pass over the list finds.
#[derive(Clone, Copy)]
pub struct Counts {
    // the least delay
    pub least: u32,
    // how many delays are at or below the largest one allowed
    pub within: u32,
    // how many are below each pivot, and at or below it
    pub under_lo: u32,
    pub upto_lo: u32,
    pub under_hi: u32,
    pub upto_hi: u32,
}

// The least delay, and the counts at the largest delay allowed and at both pivots. Nothing in the loop branches: over many delays a branch
// would often be guessed wrong.
pub fn survey(list: &[u32], largest: u32, p: Pivots) -> Counts
    requires { (0 < length list.now) × (length list.now < 2 ^ 32) }
    ensures { Surveyed list.now largest p result }
{
    let mut s = Counts {
        least: list[0],
        within: 0,
        under_lo: 0,
        upto_lo: 0,
        under_hi: 0,
        upto_hi: 0,
    };
    for &x in list {
        s.least = s.least.min(x);
        s.within += (x <= largest) as u32;
        s.under_lo += (x < p.lo) as u32;
        s.upto_lo += (x <= p.lo) as u32;
        s.under_hi += (x < p.hi) as u32;
        s.upto_hi += (x <= p.hi) as u32;
    }
    s
}

// Collects the delays strictly between the pivots. Each is stored; only those between are kept: a loop, and no `filter`, so that nothing
// branches.
fn gather(list: &[u32], p: Pivots, few: &mut [u32]) -> usize
    requires { how_many (inside p.lo p.hi) list.now < length few.old }
    ensures { Collected (inside p.lo p.hi) list.now few.new result }
{
    let mut n = 0;
    for &x in list {
        few[n] = x;
        n += ((p.lo < x) & (x < p.hi)) as usize;
    }
    n
}

// The delay of rank k among those strictly between the pivots.
fn between(list: &[u32], p: Pivots, k: u32) -> u32
    requires { (0 < k) × (k ≤ how_many (inside p.lo p.hi) list.now) × (how_many (inside p.lo p.hi) list.now < 32768) }
    ensures { Ranked k (keep (inside p.lo p.hi) list.now) result }
{
    let mut few = [0; FEW];
    let n = gather(list, p, &mut few);
    table::search(&few[..n], k)
}

// The delay of rank k, from what a survey found at the pivots.
pub fn ranked(list: &[u32], p: Pivots, s: Counts, k: u32) -> u32
    requires { (0 < k) × (k ≤ length list.now) × (length list.now < 2 ^ 32) × ((largest : ℕ) × Surveyed list.now largest p s) }
    ensures { Ranked k list.now result }
{
    if s.under_lo < k && k <= s.upto_lo {
        return p.lo;
    }
    if s.under_hi < k && k <= s.upto_hi {
        return p.hi;
    }
    if p.lo < p.hi
        && s.upto_lo < k
        && k <= s.under_hi
        && ((s.under_hi - s.upto_lo) as usize) < FEW
    {
        return between(list, p, k - s.upto_lo);
    }
    table::search(list, k)
}

// Delays from all over the list.
fn sample(list: &[u32], few: &mut [u32; SAMPLE])
    requires { (0 < length list.now) × (length list.now < 2 ^ 32) }
    ensures { Drawn list.now few.new }
{
    for (i, drawn) in few.iter_mut().enumerate() {
        *drawn = list[i * list.len() / SAMPLE];
    }
}

// Two numbers, one most likely below and one above the delay of rank k, with few delays between them. Any two are right.
pub fn choose(list: &[u32], k: u32) -> Pivots
    requires { (0 < k) × (k ≤ length list.now) × (length list.now < 2 ^ 32) }
    ensures { Chosen list.now result }
{
    if list.len() <= FEW {
        return Pivots { lo: 0, hi: 0 };
    }
    let mut few = [0; SAMPLE];
    sample(list, &mut few);
    let at = (k as usize * SAMPLE / list.len()) as u32;
    let lo = if MARGIN < at {
        table::search(&few, at - MARGIN)
    } else {
        0
    };
    let hi = if at <= SAMPLE as u32 - MARGIN {
        table::search(&few, at + MARGIN)
    } else {
        u32::MAX
    };
    Pivots { lo, hi }
}
