// The operation `summary`: the summary of a stretch out of its records.
#![tactic(auto)]

ghost use Rattle.making.specs.Making.{Outcome};

use numbers::refusal::{Fault, Refusal};
use numbers::{limits, many, room};

// The summary of the records, written into 1,024 bytes of `out` from `at` on, or the refusal that goes before all others. A buffer and a
// place in it: the C interface.
#[tactic(auto, using(crate::proofs::Answering::steps), unfolding(crate::specs::Making::made, numbers::specs::Limits::intervals))]
pub fn summary(
    settings: &[u8],
    first: u64,
    intervals: &[u8],
    out: &mut [u8],
    at: usize,
) -> Result<(), Refusal>
    ensures { Outcome settings.now first intervals.now out.old at result out.new }
{
    // `let .. else`: so document 01 has each record read taken apart.
    let Some(v) = settings::read(settings) else {
        return Err(Fault::Settings.at(0));
    };
    many::count(intervals.len(), 48).ok_or(Fault::Length)?;
    if !room::has_room(out.len(), at, 1024) {
        return Err(Fault::Room.at(0));
    }
    if (limits::INTERVALS as u64) < first {
        return Err(Fault::Field.at(0));
    }
    let x = gathering::gather(v.label, intervals, first as u32)?;
    summaries::put(&mut out[at..at + 1024], x);
    Ok(())
}
