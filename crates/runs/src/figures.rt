// Figures of intervals, and how they add up.
ghost use Rattle.std.specs.Prelude.{◌≡◌};
ghost use Rattle.runs.specs.Figures.{turned, idle, both, none, plus, reported};
ghost use Rattle.runs.specs.Valid.{LoadsFit, FiguresFit};

use numbers::limits::LARGEST_DELAY;
use tallies::Totals;

// What intervals add up to. The least delay is kept as headroom, the largest delay allowed less it.
#[derive(Clone, Copy, Default)]
pub struct Load {
    pub count: u32,
    pub sent: u64,
    pub lost: u64,
    pub sum: u64,
    pub most: u32,
    pub headroom: u32,
}

// The figures of a set of intervals: its load, how many are high, and its runs of high loss intervals of length p or more.
#[derive(Clone, Copy, Default)]
pub struct Figures {
    pub load: Load,
    pub high: u32,
    pub runs: u32,
}

// The headroom of a least delay, and the least delay of a headroom: the largest delay less it. Where nothing was delivered both are 0, and
// it stays.
#[tactic(auto, unfolding(crate::specs::Figures::turned, numbers::specs::Limits::largest_delay))]
pub fn turned(sent: u64, lost: u64, x: u32) -> u32
    ensures { result ≡ turned sent lost x }
{
    if sent == lost {
        x
    } else {
        LARGEST_DELAY.saturating_sub(x)
    }
}

// The load of no interval.
#[tactic(auto, unfolding(crate::specs::Figures::idle))]
pub fn idle() -> Load
    ensures { result ≡ idle }
{
    Load::default()
}

// The load of two sets of intervals together.
#[tactic(auto, unfolding(crate::specs::Figures::both))]
pub fn both(a: Load, b: Load) -> Load
    requires { LoadsFit a b }
    ensures { result ≡ both a b }
{
    Load {
        count: a.count + b.count,
        sent: a.sent + b.sent,
        lost: a.lost + b.lost,
        sum: a.sum + b.sum,
        most: a.most.max(b.most),
        headroom: a.headroom.max(b.headroom),
    }
}

// The figures of no interval.
#[tactic(auto, unfolding(crate::specs::Figures::none, crate::specs::Figures::idle))]
pub fn none() -> Figures
    ensures { result ≡ none }
{
    Figures::default()
}

// The figures of two sets of intervals together, no run of which goes on from the one into the other.
#[tactic(auto, unfolding(crate::specs::Figures::plus))]
pub fn plus(a: Figures, b: Figures) -> Figures
    requires { FiguresFit a b }
    ensures { result ≡ plus a b }
{
    Figures {
        load: both(a.load, b.load),
        high: a.high + b.high,
        runs: a.runs + b.runs,
    }
}

// As they are reported, with the least delay for the headroom. By a name and no `From`: it changes what a value means.
#[tactic(auto, unfolding(crate::specs::Figures::reported))]
pub fn reported(f: Figures) -> Totals
    ensures { result ≡ reported f }
{
    let l = f.load;
    Totals {
        count: l.count,
        high: f.high,
        runs: f.runs,
        sent: l.sent,
        lost: l.lost,
        sum: l.sum,
        least: turned(l.sent, l.lost, l.headroom),
        most: l.most,
    }
}
