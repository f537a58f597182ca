// The delay of a given rank, by counting in buckets: three passes over the list, whatever it holds.
ghost use Rattle.std.specs.Prelude.{◌≡◌, ◌*◌, ◌^◌, ◌<◌, ◌≤◌, length};
ghost use Rattle.percentile.specs.Ranks.{Slot, Tally, Front, Ranked};

// Where the search stands: `under` delays are below `lo`.
#[derive(Clone, Copy)]
struct Mark {
    lo: u32,
    under: u32,
}

// Buckets in a table, and spare places behind them.
const BUCKETS: usize = 2048;

const SPARE: usize = 8;
// Both.
const PLACES: usize = BUCKETS + SPARE;

// The bucket of x among 2,048 of width 2^s from lo on, or `spare` behind them for what lies outside. What is below lo wraps to above
// all.
fn slot(x: u32, lo: u32, s: u32, spare: usize) -> usize
    requires { (s < 32) × (2048 ≤ spare) × (spare < 2056) }
    ensures { Slot lo (2 ^ s) x result }
{
    let from_lo = (x as u64).wrapping_sub(lo as u64);
    let q = from_lo >> s;
    if q < BUCKETS as u64 {
        q as usize
    } else {
        spare
    }
}

// How many delays fall into each bucket. Those outside go to eight spare places in turn: one place would have each delay wait for
// the one before it, and a branch would be guessed wrong.
fn tally(list: &[u32], lo: u32, s: u32) -> [u32; PLACES]
    requires { (s < 32) × (length list.now < 2 ^ 32) }
    ensures { Tally list.now lo (2 ^ s) result }
{
    let mut t = [0; PLACES];
    for (i, &x) in list.iter().enumerate() {
        t[slot(x, lo, s, BUCKETS + i % SPARE)] += 1;
    }
    t
}

// The width of the buckets.
fn width_of(s: u32) -> u32
    requires { s < 32 }
    ensures { result ≡ 2 ^ s }
{
    1 << s
}

// From 2,048 buckets of width 2^s to the one that holds rank k. The shift is a number: a const parameter is no plainer, with three instances of four functions
// for three numbers.
fn narrow(list: &[u32], from: Mark, s: u32, k: u32) -> Mark
    requires { (s < 32) × (length list.now < 2 ^ 32) × Front k list.now (2048 * 2 ^ s) from }
    ensures { Front k list.now (2 ^ s) result }
{
    let t = tally(list, from.lo, s);
    let width = width_of(s);
    let mut at = from;
    for &count in &t[..BUCKETS - 1] {
        let next = at.under + count;
        if k <= next {
            return at;
        }
        at = Mark {
            lo: at.lo + width,
            under: next,
        };
    }
    at
}

// The delay of rank k: fewer than k delays are below it, k or more at or below it.
pub fn search(list: &[u32], k: u32) -> u32
    requires { (0 < k) × (k ≤ length list.now) × (length list.now < 2 ^ 32) }
    ensures { Ranked k list.now result }
{
    let a = narrow(list, Mark { lo: 0, under: 0 }, 21, k);
    let b = narrow(list, a, 10, k);
    let c = narrow(list, b, 0, k);
    c.lo
}
