// The label bytes of a stretch from interval 0. Nothing is written before every record is known to be good. Each label is written
// once, when it is settled, or as undecided at the end: the work grows with the number of intervals alone.
ghost use Rattle.std.specs.Prelude.{◌≡◌, ◌+◌, ◌-◌, ◌*◌, ◌/◌, ◌≤◌, ◌<◌, true, length};
ghost use Rattle.settings.specs.Settings.{label_meets};
ghost use Rattle.intervals.specs.Sequence.{intervals_in};
ghost use Rattle.rule.specs.Evaluator.{turn};
ghost use Rattle.rule.specs.Labels.{settled};
ghost use Rattle.labels.specs.Stretch.{label_byte, label_bytes, intervals_of, strided, settled_in, both_turned, both_settled, both_left, Settling, Leaving, Writing, outcome, when_whole, labels_of};

use crate::marks;
use numbers::refusal::{Fault, Refusal};
use numbers::{many, room};
use rule::{Both, Counts, Track};
use settings::LabelSettings;

// A settled label as a byte of the C interface. A label is a `bool` here, so it has no `From` of its own.
fn byte_of(label: bool) -> u8
    ensures { result ≡ label_byte (settled label) }
{
    if label { 0 } else { 1 }
}

// Every second byte from `from` on, `count` of them, set to `x`. By places, as `part[from..]` would ask more: with none to set, `from` may be past the end.
#[tactic(auto, using(crate::proofs::Strides::strided_start, crate::proofs::Strides::strided_none))]
fn fill(part: &mut [u8], from: usize, count: usize, x: u8)
    requires { from + 2 * count ≤ length part.old + 1 }
    ensures { part.new ≡ strided part.old from count x }
{
    for j in 0..count {
        part[from + 2 * j] = x;
    }
}

// The mark of interval `k`: the track after it, with the labels that it settles written on their lane.
#[tactic(auto, using(rule::proofs::Settling::gain_count))]
fn settle(part: &mut [u8], k: usize, lane: usize, n: u64, t: Track, mark: bool) -> Track
    requires { (t.pending < n) × (t.pending ≤ k) × (2 * k + lane < length part.old) }
    ensures { (result ≡ turn n t mark) × (part.new ≡ settled_in part.old k lane n t mark) }
{
    let a = rule::advance(n, t, mark);
    let count = a.count as usize;
    fill(part, 2 * (k + 1 - count) + lane, count, byte_of(mark));
    a.track
}

// What is still pending on a lane after `k` intervals, written as undecided.
fn leave(part: &mut [u8], k: usize, lane: usize, t: Track)
    requires { (t.pending ≤ k) × (2 * k + lane ≤ length part.old + 1) }
    ensures { part.new ≡ strided part.old (2 * (k - t.pending) + lane) t.pending 2 }
{
    let pending = t.pending as usize;
    fill(part, 2 * (k - pending) + lane, pending, 2);
}

// Interval `k` on both lanes.
fn settle_both(
    part: &mut [u8],
    k: usize,
    l: LabelSettings,
    t: Both<Track>,
    x: Counts,
) -> Both<Track>
    requires { Settling l k t part.old }
    ensures { (result ≡ both_turned l t x) × (part.new ≡ both_settled part.old k l t x) }
{
    let n = l.n as u64;
    let m = marks::high(l, x);
    let loss = settle(part, k, 0, n, t.loss, m.loss);
    let composite = settle(part, k, 1, n, t.composite, m.composite);
    Both { loss, composite }
}

// What is pending on both lanes after `k` intervals.
fn leave_both(part: &mut [u8], k: usize, t: Both<Track>)
    requires { Leaving k t part.old }
    ensures { part.new ≡ both_left part.old k t }
{
    leave(part, k, 0, t.loss);
    leave(part, k, 1, t.composite);
}

// The label bytes of the sound records of `r`, into a part that is just as long.
#[tactic(auto, using(crate::proofs::Writing::lanes_step, crate::proofs::Writing::lanes_done, crate::proofs::Strides::length_strided))]
fn write_labels(l: LabelSettings, r: &[u8], part: &mut [u8])
    requires { Writing l r.now part.old }
    ensures { part.new ≡ label_bytes l (intervals_of (intervals_in r.now)) }
{
    let nothing = Track {
        label: false,
        pending: 0,
    };
    let mut t = Both {
        loss: nothing,
        composite: nothing,
    };
    let count = r.len() / 48;
    for k in 0..count {
        t = settle_both(part, k, l, t, marks::counts_at(r, k));
    }
    leave_both(part, count, t);
}

// The label bytes of the `n` whole records of `r` (as they were counted; taken from the length it would be counted twice), written at `at` of `out` if there is room and the records are sound.
#[tactic(auto, using(numbers::proofs::Window::room_within, crate::proofs::Placing::labels_placed))]
fn write_at(l: LabelSettings, r: &[u8], n: usize, out: &mut [u8], at: usize) -> Result<(), Refusal>
    requires { (label_meets l ≡ true) × (n ≡ length r.now / 48) }
    ensures { outcome result out.new ≡ when_whole l r.now out.old at n }
{
    if !room::has_room(out.len(), at, 2 * n) {
        return Err(Fault::Room.at(0));
    }
    intervals::check(r, 0)?;
    write_labels(l, r, &mut out[at..at + 2 * n]);
    Ok(())
}

// The label bytes of the stretch `r` of interval records from 0, written at `at` of `out`: the C interface has a buffer and a place in it.
#[tactic(auto, using(crate::proofs::Placing::read_label, crate::proofs::Placing::counted), unfolding(crate::specs::Stretch::labels_of))]
pub fn labels(s: &[u8], r: &[u8], out: &mut [u8], at: usize) -> Result<(), Refusal>
    ensures { outcome result out.new ≡ labels_of s.now r.now out.old at }
{
    // `let .. else`: so document 01 has each record read taken apart.
    let Some(v) = settings::read(s) else {
        return Err(Fault::Settings.at(0));
    };
    let n = many::count(r.len(), 48).ok_or(Fault::Length)?;
    write_at(v.label, r, n, out, at)
}
