// Two adjoining summaries, joined.
#![tactic(auto)]

ghost use Rattle.std.specs.Prelude.{◌≡◌};
ghost use Rattle.joining.specs.Joining.{joined_of, Adjoining, Outcome};

use numbers::refusal::{Fault, Refusal};
use numbers::room;
use runs::run::Lengths;
use summaries::Summary;

// The summary of both stretches.
#[tactic(auto, using(crate::proofs::Judging::loss_fits, crate::proofs::Judging::composite_fits), unfolding(crate::specs::Joining::joined_of))]
pub fn both(a: Summary, b: Summary) -> Summary
    requires { Adjoining a b }
    ensures { result ≡ joined_of a b }
{
    // written out: what a function gives is known by an equation, which the proofs above would have to carry
    let by = Lengths {
        n: a.label.n as u32,
        p: a.label.p as u32,
    };
    // locals, as a part of a struct that is handed on where it stands is copied once more
    let left = a.loss;
    let right = b.loss;
    let before = a.composite;
    let behind = b.composite;
    Summary {
        first: a.first,
        after: b.after,
        label: a.label,
        loss: tracks::join(by, left, right),
        composite: tracks::join(by, before, behind),
    }
}

// The summary of two adjoining stretches, written into 1,024 bytes of `out` from `at` on, or the refusal that goes before all others. A buffer and a
// place in it: the C interface.
#[tactic(auto, using(crate::proofs::Judging::steps), unfolding(crate::specs::Joining::judged))]
pub fn join(left: &[u8], right: &[u8], out: &mut [u8], at: usize) -> Result<(), Refusal>
    ensures { Outcome left.now right.now out.old at result out.new }
{
    if left.len() != 1024 {
        return Err(Fault::Length.at(0));
    }
    if right.len() != 1024 {
        return Err(Fault::Length.at(0));
    }
    if !room::has_room(out.len(), at, 1024) {
        return Err(Fault::Room.at(0));
    }
    // `let .. else`: so document 01 has each record read taken apart.
    let Some(a) = summaries::read(left) else {
        return Err(Fault::Field.at(0));
    };
    let Some(b) = summaries::read(right) else {
        return Err(Fault::Field.at(1));
    };
    if a.label != b.label {
        return Err(Fault::Mismatch.at(1));
    }
    if a.after != b.first {
        return Err(Fault::Order.at(1));
    }
    summaries::put(&mut out[at..at + 1024], both(a, b));
    Ok(())
}
