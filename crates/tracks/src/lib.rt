// Tracks of a stretch: grown run by run, joined, put in maintenance, and the whole of a known sequence.
#![tactic(auto)]

ghost use Rattle.std.specs.Prelude.{◌≡◌, cond, ◌<◌};
ghost use Rattle.runs.specs.Runs.{glue, same};
ghost use Rattle.runs.specs.Middles.{times, shut};
ghost use Rattle.runs.specs.Valid.{RunsFit, ShutFits};
ghost use Rattle.tracks.specs.Tracks.{push, graft, join, quiet, start, decided, finish, sorted, tallied, whole, count_in};
ghost use Rattle.tracks.specs.Valid.{PushFits, GraftFits, JoinFits, FinishFits, TrackFits};

use runs::figures::Figures;
use runs::middles::{Label, Middle};
use runs::run::{Lengths, Run};
use runs::{figures, middles, run};
use tallies::{ByLabel, Totals};

// Nothing, one run, or a first run, what lies between, and a last run. The three stand as in time, so they have no names: with them each arm
// takes five lines, and as one struct they would be handed on out of a struct, which copies them once more.
#[derive(Clone, Copy)]
pub enum Track {
    Nothing,
    One(Run),
    Many(Run, Middle, Run),
}

// The middle of a track of several runs, the last of which is t, with the run r behind it: where the mark changes t is shut.
#[tactic(auto, unfolding(runs::specs::Runs::same))]
pub fn middle_with(by: Lengths, m: Middle, t: Run, r: Run) -> Middle
    requires { ShutFits by.p m t }
    ensures { result ≡ cond (same t r) m (times m (shut by.n by.p t)) }
{
    if t.mark == r.mark {
        m
    } else {
        middles::shut_onto(by, m, t)
    }
}

// The last run of such a track.
#[tactic(auto, unfolding(runs::specs::Runs::same))]
pub fn last_with(p: u32, t: Run, r: Run) -> Run
    requires { RunsFit t r }
    ensures { result ≡ cond (same t r) (glue p t r) r }
{
    if t.mark == r.mark {
        run::glue(p, t, r)
    } else {
        r
    }
}

// A run behind a track. While the mark stays, only the last run changes.
#[tactic(auto, unfolding(crate::specs::Tracks::push, runs::specs::Runs::same))]
pub fn push(by: Lengths, a: Track, r: Run) -> Track
    requires { PushFits by.n by.p a r }
    ensures { result ≡ push by.n by.p a r }
{
    match a {
        Track::Nothing => Track::One(r),
        Track::One(t) => {
            if t.mark == r.mark {
                Track::One(run::glue(by.p, t, r))
            } else {
                Track::Many(t, middles::unit(), r)
            }
        }
        Track::Many(first, between, last) => {
            Track::Many(
                first,
                middle_with(by, between, last, r),
                last_with(by.p, last, r),
            )
        }
    }
}

// A middle and a last run behind a track, whose own last run is shut.
#[tactic(auto, unfolding(crate::specs::Tracks::graft))]
fn graft(by: Lengths, a: Track, m: Middle, t: Run) -> Track
    requires { GraftFits by.n by.p a m }
    ensures { result ≡ graft by.n by.p a m t }
{
    match a {
        Track::Nothing => Track::One(t),
        Track::One(l) => Track::Many(l, m, t),
        Track::Many(first, between, last) => {
            Track::Many(
                first,
                middles::times(between, middles::times(middles::shut(by, last), m)),
                t,
            )
        }
    }
}

// Two tracks, one after the other.
#[tactic(auto, unfolding(crate::specs::Tracks::join))]
pub fn join(by: Lengths, a: Track, b: Track) -> Track
    requires { JoinFits by.n by.p a b }
    ensures { result ≡ join by.n by.p a b }
{
    match b {
        Track::Nothing => a,
        Track::One(r) => push(by, a, r),
        Track::Many(first, between, last) => graft(by, push(by, a, first), between, last),
    }
}

// The same track, all in maintenance.
#[tactic(auto, unfolding(crate::specs::Tracks::quiet))]
pub fn quiet(a: Track) -> Track
    ensures { result ≡ quiet a }
{
    match a {
        Track::Nothing => Track::Nothing,
        Track::One(r) => Track::One(run::quiet_run(r)),
        Track::Many(first, between, last) => Track::Many(
            run::quiet_run(first),
            middles::quiet_middle(between),
            run::quiet_run(last),
        ),
    }
}

// Before interval 0 the label counts as available.
#[tactic(auto, unfolding(crate::specs::Tracks::start))]
fn start() -> Middle
    ensures { result ≡ start }
{
    middles::placed(Label::Says(false), figures::none())
}

// Whether a run at the end, behind a label, has its label whatever comes.
#[tactic(auto, unfolding(crate::specs::Tracks::decided))]
fn decided(n: u32, l: Label, t: Run) -> bool
    ensures { result ≡ decided n l t }
{
    match l {
        Label::Inherits => n <= t.len,
        Label::Says(b) => (n <= t.len) | (b == t.mark),
    }
}

// A known sequence, all of it but the last run behind its labels.
#[tactic(auto, unfolding(crate::specs::Tracks::finish))]
fn finish(by: Lengths, m: Middle, t: Run) -> ByLabel<Figures>
    requires { FinishFits by.p m t }
    ensures { result ≡ finish by.n by.p m t }
{
    if decided(by.n, m.label, t) {
        let all = middles::times(m, middles::shut(by, t));
        return ByLabel {
            available: all.available,
            unavailable: all.unavailable,
            undecided: figures::none(),
        };
    }
    ByLabel {
        available: m.available,
        unavailable: m.unavailable,
        undecided: run::figures_of(by.p, t),
    }
}

// A known sequence from interval 0.
#[tactic(auto, unfolding(crate::specs::Tracks::sorted, crate::specs::Tracks::start, runs::specs::Middles::placed))]
pub fn sorted(by: Lengths, t: Track) -> ByLabel<Figures>
    requires { TrackFits by.n by.p t }
    ensures { result ≡ sorted by.n by.p t }
{
    match t {
        Track::Nothing => ByLabel {
            available: figures::none(),
            unavailable: 0,
            undecided: figures::none(),
        },
        Track::One(last) => finish(by, start(), last),
        Track::Many(first, between, last) => {
            finish(
                by,
                middles::times(middles::times(start(), middles::shut(by, first)), between),
                last,
            )
        }
    }
}

// An outcome as it is reported.
#[tactic(auto, unfolding(crate::specs::Tracks::tallied))]
pub fn tallied(o: ByLabel<Figures>) -> ByLabel<Totals>
    ensures { result ≡ tallied o }
{
    o.map(figures::reported)
}

// The tally of a known sequence from interval 0.
#[tactic(auto, unfolding(crate::specs::Tracks::whole))]
pub fn whole(by: Lengths, t: Track) -> ByLabel<Totals>
    requires { TrackFits by.n by.p t }
    ensures { result ≡ whole by.n by.p t }
{
    tallied(sorted(by, t))
}

// How many intervals count: all but those in maintenance.
#[tactic(auto, unfolding(crate::specs::Tracks::count_in, crate::specs::Tracks::count_between))]
pub fn count_in(t: Track) -> u32
    requires { count_in t < 4294967296 }
    ensures { result ≡ count_in t }
{
    match t {
        Track::Nothing => 0,
        Track::One(last) => last.load.count,
        Track::Many(first, m, last) => {
            let between = m.inherited.load.count + (m.available.load.count + m.unavailable);
            first.load.count + (between + last.load.count)
        }
    }
}
