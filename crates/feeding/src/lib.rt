// Interval records fed piece by piece, in pieces of any sizes: at the end stands what the operation `summary` makes of all the bytes. Each
// piece's whole records are made a summary of their own, which is joined to what is held; the bytes of a record that has only begun wait in a
// lent tail of 48 bytes for the next piece.
#![tactic(auto)]

ghost use Rattle.std.specs.Prelude.{◌≡◌, ◌+◌, ◌++◌, ◌<◌, ◌≤◌, ◌^◌, length, take, drop};
ghost use Rattle.numbers.specs.Refusals.{refusal};
ghost use Rattle.feeding.specs.Feeding.{Known, Ready, Growing, standing, grown, grown_by, begun, fed, filled, if_whole, finished_by};

use numbers::refusal::{Fault, Refusal};
use summaries::Summary;
use tracks::Track;

// What the whole records so far say. Three cases, each with a name: an Option of a Result would name neither the settings nor the record.
#[derive(Clone, Copy)]
pub enum Held {
    // the settings are no settings
    Unset,
    Sound(Summary),
    // the first record at fault
    Faulty(Refusal),
}

// What is held, and how many bytes of a record that has begun stand in the tail.
#[derive(Clone, Copy)]
pub struct State {
    pub held: Held,
    pub left: usize,
}

// A refusal whose place is counted from `by` places further on.
fn moved(r: Refusal, by: u32) -> Refusal
    requires { r.place + by < 2 ^ 64 }
    ensures { result ≡ refusal r.fault (r.place + by) }
{
    r.fault.at(r.place + by as u64)
}

// A summary from 0, grown by the records of `s` behind it, or the first of these that is at fault.
#[tactic(auto, using(summaries::proofs::Validity::summary_valid, crate::proofs::Waiting::grown_bad), unfolding(numbers::specs::Limits::intervals))]
fn grow(v: Summary, s: &[u8]) -> Held
    requires { Known v }
    ensures { result ≡ grown v s.now }
{
    match gathering::gather(v.label, s, v.after) {
        Ok(x) => Held::Sound(joining::both(v, x)),
        Err(r) => Held::Faulty(moved(r, v.after)),
    }
}

// What is held after the records of `s`. After a fault nothing changes. `Growing` is a clause and no invariant of `Held`: a summary's laws speak of
// any values, and what it knows of one names the bytes that it was read from, which nothing holds.
#[tactic(auto, unfolding(crate::specs::Feeding::Growing))]
fn take_in(held: Held, s: &[u8]) -> Held
    requires { Growing held }
    ensures { result ≡ grown_by held s.now }
{
    match held {
        Held::Unset => Held::Unset,
        Held::Sound(v) => grow(v, s),
        Held::Faulty(r) => Held::Faulty(r),
    }
}

// Nothing is fed yet.
#[tactic(auto, unfolding(crate::specs::Feeding::begun, summaries::specs::Made::made_of, tracks::specs::Tracks::summary, tracks::specs::Tracks::push_all))]
pub fn start(settings: &[u8]) -> State
    ensures { result ≡ begun settings.now }
{
    // `let .. else`: so document 01 has each record read taken apart.
    let Some(v) = settings::read(settings) else {
        return State {
            held: Held::Unset,
            left: 0,
        };
    };
    let empty = Summary {
        first: 0,
        after: 0,
        label: v.label,
        loss: Track::Nothing,
        composite: Track::Nothing,
    };
    State {
        held: Held::Sound(empty),
        left: 0,
    }
}

// All of `from` copied to the start of `to`, and how many bytes that is.
fn copy(from: &[u8], to: &mut [u8]) -> usize
    requires { length from.now ≤ length to.old }
    ensures count { result ≡ length from.now }
    ensures after { to.new ≡ from.now ++ drop (length from.now) to.old }
{
    to[..from.len()].copy_from_slice(from);
    from.len()
}

// A piece where no record has begun: its whole records are taken in, and the rest of it waits.
fn feed_whole(held: Held, tail: &mut [u8], piece: &[u8]) -> State
    requires { (length tail.old ≡ 48) × Growing held }
    ensures tail_after { standing result tail.new ≡ filled held piece.now }
    ensures ready { Ready result tail.new }
{
    let whole = piece.len() / 48 * 48;
    let next = take_in(held, &piece[..whole]);
    let left = copy(&piece[whole..], tail);
    State { held: next, left }
}

// The next piece of the file.
pub fn feed(state: State, tail: &mut [u8], piece: &[u8]) -> State
    requires { Ready state tail.old }
    ensures tail_after { standing result tail.new ≡ fed (standing state tail.old) piece.now }
    ensures ready { Ready result tail.new }
{
    let held = state.held;
    let left = state.left;
    if left == 0 {
        return feed_whole(held, tail, piece);
    }
    let room = 48 - left;
    if piece.len() < room {
        let more = copy(piece, &mut tail[left..]);
        return State {
            held,
            left: left + more,
        };
    }
    copy(&piece[..room], &mut tail[left..]);
    let next = take_in(held, tail);
    feed_whole(next, tail, &piece[room..])
}

// An answer, where no record has only begun.
fn if_whole(left: usize, answer: Result<Summary, Refusal>) -> Result<Summary, Refusal>
    ensures { result ≡ if_whole left answer }
{
    if left == 0 {
        return answer;
    }
    Err(Fault::Length.at(0))
}

// What all the bytes say: the settings' refusal, then that of a length that is no whole number of records, then that of the first record
// at fault; else the summary.
pub fn finish(state: State) -> Result<Summary, Refusal>
    ensures { result ≡ finished_by state.held state.left }
{
    match state.held {
        Held::Unset => Err(Fault::Settings.at(0)),
        Held::Sound(v) => if_whole(state.left, Ok(v)),
        Held::Faulty(r) => if_whole(state.left, Err(r)),
    }
}
