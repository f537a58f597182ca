// The rules of a track, as tests: what a reader of records looks at. Each takes any values at all. And what a track sees of an interval
// record.
#![tactic(auto)]

ghost use Rattle.std.specs.Prelude.{◌≡◌, cond, ◌≤◌};
ghost use Rattle.tracks.specs.Valid.{busy};
ghost use Rattle.tallies.specs.Seen.{marked_as};
ghost use Rattle.track_rules.specs.Meets.{load_meets, figures_meet, high_meets, low_meets, run_meets, idle_load, no_figures, label_meets, middle_meets, ends_meet, many_meets, track_meets};

use intervals::Interval;
use numbers::limits;
use runs::figures::{Figures, Load};
use runs::middles::{Label, Middle};
use runs::run::{Edges, Lengths, Run};
use tallies::Marked;
use tracks::Track;

// A load: an interval's rules, with the headroom for the least delay. The first three bound what the last two multiply.
#[tactic(auto, using(crate::proofs::Products::delays_fit), unfolding(crate::specs::Meets::load_meets, numbers::specs::Limits::intervals, numbers::specs::Limits::frames, numbers::specs::Limits::largest_delay))]
pub fn load_meets(l: Load) -> bool
    ensures { result ≡ load_meets l }
{
    if limits::INTERVALS < l.count {
        return false;
    }
    if (limits::FRAMES as u64) * (l.count as u64) < l.sent {
        return false;
    }
    if limits::LARGEST_DELAY < l.most {
        return false;
    }
    let got = l.sent.saturating_sub(l.lost);
    let least = limits::LARGEST_DELAY.saturating_sub(l.headroom);
    let low = (least as u64) * got;
    let high = (l.most as u64) * got;
    (l.lost <= l.sent)
        & ((got != 0) | ((l.most == 0) & (l.headroom == 0)))
        & (l.headroom <= limits::LARGEST_DELAY)
        & ((got == 0) | ((limits::LARGEST_DELAY as u64) <= (l.most as u64) + (l.headroom as u64)))
        & (low <= l.sum)
        & (l.sum <= high)
}

// Figures: of those counted some are high, and of those p or more in each run; none where p is 0.
#[tactic(auto, unfolding(crate::specs::Meets::figures_meet))]
pub fn figures_meet(p: u32, f: Figures) -> bool
    ensures { result ≡ figures_meet p f }
{
    load_meets(f.load)
        & (f.high <= f.load.count)
        & ((p as u64) * (f.runs as u64) <= (f.high as u64))
        & ((p != 0) | (f.runs == 0))
}

// The edges of a run of high marks.
#[tactic(auto, unfolding(crate::specs::Meets::high_meets))]
fn high_meets(p: u32, len: u32, count: u32, e: Edges) -> bool
    ensures { result ≡ high_meets p len count e }
{
    match e {
        Edges::Solid(k) => (k == len) & (count == len),
        Edges::Split { pre, inner, post } => {
            ((inner as u64) + (count as u64) < (len as u64))
                & ((pre as u64) + (post as u64) + (p as u64) * (inner as u64) <= (count as u64))
                & ((p != 0) | (inner == 0))
        }
    }
}

// The edges of a run of low marks: none.
#[tactic(auto, unfolding(crate::specs::Meets::low_meets))]
fn low_meets(e: Edges) -> bool
    ensures { result ≡ low_meets e }
{
    match e {
        Edges::Solid(_) => false,
        Edges::Split { pre, inner, post } => (pre == 0) & (inner == 0) & (post == 0),
    }
}

// The edges of a run, by its mark.
fn edges_meet(p: u32, r: Run) -> bool
    ensures { result ≡ cond r.mark (high_meets p r.len r.load.count r.edges) (low_meets r.edges) }
{
    if r.mark {
        high_meets(p, r.len, r.load.count, r.edges)
    } else {
        low_meets(r.edges)
    }
}

// A run.
#[tactic(auto, unfolding(crate::specs::Meets::run_meets))]
pub fn run_meets(p: u32, r: Run) -> bool
    ensures { result ≡ run_meets p r }
{
    (1 <= r.len) & (r.load.count <= r.len) & load_meets(r.load) & edges_meet(p, r)
}

// Whether a load has nothing. Field by field, as the definition's rules are.
#[tactic(auto, unfolding(crate::specs::Meets::idle_load))]
fn idle_load(l: Load) -> bool
    ensures { result ≡ idle_load l }
{
    (l.count == 0)
        & (l.sent == 0)
        & (l.lost == 0)
        & (l.sum == 0)
        & (l.most == 0)
        & (l.headroom == 0)
}

// Whether figures have nothing, likewise.
#[tactic(auto, unfolding(crate::specs::Meets::no_figures))]
fn no_figures(f: Figures) -> bool
    ensures { result ≡ no_figures f }
{
    idle_load(f.load) & (f.high == 0) & (f.runs == 0)
}

// What inherits has nothing of its own; a label takes n intervals.
#[tactic(auto, unfolding(crate::specs::Meets::label_meets))]
fn label_meets(n: u32, size: u32, l: Label, m: Middle) -> bool
    ensures { result ≡ label_meets n size l m }
{
    match l {
        Label::Inherits => no_figures(m.available) & (m.unavailable == 0),
        Label::Says(_) => n <= size,
    }
}

// A middle of `size` intervals.
#[tactic(auto, unfolding(crate::specs::Meets::middle_meets))]
pub fn middle_meets(by: Lengths, size: u32, m: Middle) -> bool
    ensures { result ≡ middle_meets by.n by.p size m }
{
    let i = m.inherited.load.count as u64;
    let a = m.available.load.count as u64;
    figures_meet(by.p, m.inherited)
        & figures_meet(by.p, m.available)
        & (i + a + (m.unavailable as u64) <= (size as u64))
        & label_meets(by.n, size, m.label, m)
}

// The high intervals of a middle and its high loss runs.
#[tactic(auto, unfolding(tracks::specs::Valid::busy))]
fn busy(m: Middle) -> u64
    ensures value { result ≡ busy m }
    ensures small { result ≤ 17179869180 }
{
    let i = m.inherited;
    let a = m.available;
    (i.high as u64) + (i.runs as u64) + ((a.high as u64) + (a.runs as u64))
}

// A label takes n intervals between, and one more to each end that has its mark.
#[tactic(auto, unfolding(crate::specs::Meets::ends_meet))]
fn ends_meet(n: u32, size: u32, l: Label, a: bool, b: bool) -> bool
    ensures { result ≡ ends_meet n size l a b }
{
    match l {
        Label::Inherits => true,
        Label::Says(c) => (n as u64) + u64::from(b == c) + u64::from(a == c) <= (size as u64),
    }
}

// Two runs or more, with `size` intervals between.
#[tactic(auto, unfolding(crate::specs::Meets::many_meets))]
fn many_meets(by: Lengths, size: u32, l: Run, m: Middle, t: Run) -> bool
    ensures { result ≡ many_meets by.n by.p size l m t }
{
    run_meets(by.p, l)
        & middle_meets(by, size, m)
        & run_meets(by.p, t)
        & ((size != 0) | !(l.mark == t.mark))
        & ((size != 1) | (l.mark == t.mark))
        & (busy(m) + u64::from(l.mark) + u64::from(t.mark) <= (size as u64) + 1)
        & ends_meet(by.n, size, m.label, l.mark, t.mark)
}

// A track of `len` intervals.
#[tactic(auto, unfolding(crate::specs::Meets::track_meets))]
pub fn track_meets(by: Lengths, len: u32, t: Track) -> bool
    ensures { result ≡ track_meets by.n by.p len t }
{
    match t {
        Track::Nothing => len == 0,
        Track::One(r) => (r.len == len) & run_meets(by.p, r),
        Track::Many(first, between, last) => {
            if (len as u64) < (first.len as u64) + (last.len as u64) {
                return false;
            }
            many_meets(by, len - (first.len + last.len), first, between, last)
        }
    }
}

// An interval record as one track sees it, with its mark on that track.
#[tactic(auto, unfolding(tallies::specs::Seen::marked_as))]
pub fn marked(mark: bool, v: Interval) -> Marked
    ensures { result ≡ marked_as mark v }
{
    Marked {
        mark,
        maintenance: v.maintenance,
        sent: v.sent,
        lost: v.lost,
        sum: v.sum,
        least: v.least,
        most: v.most,
    }
}
