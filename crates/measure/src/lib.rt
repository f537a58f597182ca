// From frames to one interval.
#![tactic(auto)]

ghost use Rattle.std.specs.Prelude.{◌≡◌, ◌^◌, ◌≤◌, ◌<◌, cond};
ghost use Rattle.measure.specs.Running.{added, finished, nothing, taken_of, Small};
ghost use Rattle.measure.specs.Outcome.{frames_in, reads_from, judged_frames, Outcome};
ghost use Rattle.numbers.specs.Limits.{frames};

use frames::Frame;
use intervals::Interval;
use numbers::refusal::{Fault, Refusal};
use numbers::{limits, many, room};
use settings::LabelSettings;

// What the frames taken so far give, and what the next one needs of the last.
#[derive(Clone, Copy)]
pub struct Tally {
    pub sent: u32,
    pub lost: u32,
    pub late: u32,
    pub pairs: u32,
    pub jumpy: u32,
    pub sum: u64,
    pub least: u32,
    pub most: u32,
    // whether the last frame was delivered, and its delay: two fields, as an Option would part `add` into branches
    pub delivered: bool,
    pub delay: u32,
}

// The one of two that `b` says. A function, so that a frame's figures are one expression and its proof has no branches.
fn pick(b: bool, x: u32, y: u32) -> u32
    ensures { result ≡ cond b x y }
{
    if b { x } else { y }
}

// Nothing taken yet.
fn start() -> Tally
    ensures { result ≡ nothing }
{
    Tally {
        sent: 0,
        lost: 0,
        late: 0,
        pairs: 0,
        jumpy: 0,
        sum: 0,
        least: 0,
        most: 0,
        delivered: false,
        delay: 0,
    }
}

// One frame more.
#[tactic(auto, using(numbers::proofs::Refused::as_number), unfolding(crate::specs::Running::added, crate::specs::Measured::apart, numbers::specs::Limits::frames, numbers::specs::Limits::largest_delay))]
fn add(t: Tally, f: Frame, dl: u32, jt: u32) -> Tally
    requires { Small t × (t.sent < frames) }
    ensures { result ≡ added dl jt t f }
{
    let got = !f.lost;
    let pair = t.delivered & got;
    let jump = pair & (jt < t.delay.abs_diff(f.delay));
    let least = pick(t.sent == t.lost, f.delay, t.least.min(f.delay));
    let more = pick(got, f.delay, 0);
    Tally {
        sent: t.sent + 1,
        lost: t.lost + f.lost as u32,
        late: t.late + (got & (dl < f.delay)) as u32,
        pairs: t.pairs + pair as u32,
        jumpy: t.jumpy + jump as u32,
        sum: t.sum + more as u64,
        least: pick(got, least, t.least),
        most: pick(got, t.most.max(f.delay), t.most),
        delivered: got,
        delay: f.delay,
    }
}

// The interval of what was taken.
#[tactic(auto, unfolding(crate::specs::Running::finished))]
fn finish(t: Tally, number: u32, maintenance: bool) -> Interval
    ensures { result ≡ finished number maintenance t }
{
    Interval {
        number,
        sent: t.sent,
        lost: t.lost,
        late: t.late,
        pairs: t.pairs,
        jumpy: t.jumpy,
        sum: t.sum,
        least: t.least,
        most: t.most,
        maintenance,
    }
}

// The tally of the `n` frames in `s` (as they were counted: from the length it would be counted twice), with times from `from` to before `to`, or
// the first fault among them. The two times and the two bounds on delays are numbers: only this function and `add` take them.
#[tactic(auto, using(crate::proofs::Taking::take_ends))]
fn take_frames(s: &[u8], n: usize, from: u64, to: u64, dl: u32, jt: u32) -> Result<Tally, Refusal>
    requires { (n ≤ frames) × (to < 2 ^ 63) }
    ensures { result ≡ taken_of dl jt nothing (frames_in from to 0 0 (reads_from n s.now 0)) }
{
    let mut t = start();
    let mut earliest: u64 = 0;
    for k in 0..n {
        let place = k as u64;
        // `let .. else`: so document 01 has each record read taken apart.
        let Some(f) = frames::read(many::part(s, 16, k)) else {
            return Err(Fault::Field.at(place));
        };
        let time = f.time;
        if time < from {
            return Err(Fault::Outside.at(place));
        }
        if to <= time {
            return Err(Fault::Outside.at(place));
        }
        if time < earliest {
            return Err(Fault::Order.at(place));
        }
        t = add(t, f, dl, jt);
        earliest = time + 1;
    }
    Ok(t)
}

// The interval of the `n` frames in `s`, or the first refusal that is left where there is room. `n` was counted by `interval`.
#[tactic(auto, using(crate::proofs::Judging::judged_steps), unfolding(crate::specs::Outcome::judged_frames, numbers::specs::Limits::frames, numbers::specs::Limits::intervals))]
fn judge(
    l: LabelSettings,
    s: &[u8],
    n: usize,
    number: u64,
    maintenance: u64,
) -> Result<Interval, Refusal>
    requires { l.length ≤ 60000 }
    ensures { result ≡ judged_frames l n number maintenance s.now }
{
    if (limits::FRAMES as usize) < n {
        return Err(Fault::Full.at(0));
    }
    if (limits::INTERVALS as u64) <= number {
        return Err(Fault::Field.at(0));
    }
    if 1 < maintenance {
        return Err(Fault::Field.at(0));
    }
    let length = (l.length as u64) * 1_000_000;
    let from = number * length;
    let t = take_frames(s, n, from, from + length, l.dl, l.jt)?;
    Ok(finish(t, number as u32, maintenance == 1))
}

// The interval record of the frames, written into 48 bytes of `out` from `at` on, or the refusal that goes before all others. A buffer and a
// place in it: the C interface.
#[tactic(auto, using(crate::proofs::Judging::written_whole), unfolding(crate::specs::Outcome::judged))]
pub fn interval(
    settings: &[u8],
    frames: &[u8],
    number: u64,
    maintenance: u64,
    out: &mut [u8],
    at: usize,
) -> Result<(), Refusal>
    ensures { Outcome settings.now frames.now number maintenance out.old at result out.new }
{
    // `let .. else`: so document 01 has each record read taken apart.
    let Some(v) = settings::read(settings) else {
        return Err(Fault::Settings.at(0));
    };
    let n = many::count(frames.len(), 16).ok_or(Fault::Length)?;
    if !room::has_room(out.len(), at, 48) {
        return Err(Fault::Room.at(0));
    }
    let i = judge(v.label, frames, n, number, maintenance)?;
    intervals::put(&mut out[at..at + 48], i);
    Ok(())
}
