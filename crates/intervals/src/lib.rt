// The interval record, 48 bytes: its values, its rules, read and written; and a slice of many of them.
#![tactic(auto)]

ghost use Rattle.std.specs.Prelude.{◌≡◌, ◌-◌, length};
ghost use Rattle.std.proofs.lemmas.List.Edits.{sets};
ghost use Rattle.numbers.specs.Many.{record_at};
ghost use Rattle.intervals.specs.Sequence.{intervals_in, checked};
ghost use Rattle.intervals.specs.Interval.{interval_in, interval_of, count_bytes, delay_bytes, interval_bytes, counts_meet, delays_meet};

use numbers::refusal::{Fault, Refusal};
use numbers::{bytes, known, limits, many};

// An interval record's values, in its order. Settings, frames and summaries are read in the same three steps, length, values and rules: a trait for
// them would be longer than the four readers.
#[derive(Clone, Copy)]
pub struct Interval {
    pub number: u32,
    pub sent: u32,
    pub lost: u32,
    // delivered, with a delay above DL
    pub late: u32,
    // consecutive frames, both delivered
    pub pairs: u32,
    // pairs whose delays differ by more than Jt
    pub jumpy: u32,
    // delay sum, least and most of the delivered, in ns
    pub sum: u64,
    pub least: u32,
    pub most: u32,
    pub maintenance: bool,
}

// The values that stand in 48 bytes.
#[tactic(auto, unfolding(crate::specs::Interval::interval_in))]
fn interval_in(s: &[u8]) -> Interval
    requires { length s.now ≡ 48 }
    ensures { result ≡ interval_in s.now }
{
    Interval {
        number: known::get_u32(s, 0),
        sent: known::get_u32(s, 4),
        lost: known::get_u32(s, 8),
        late: known::get_u32(s, 12),
        pairs: known::get_u32(s, 16),
        jumpy: known::get_u32(s, 20),
        sum: known::get_u64(s, 24),
        least: known::get_u32(s, 32),
        most: known::get_u32(s, 36),
        maintenance: s[40] == 1,
    }
}

// Frames sent less frames lost, 0 where more are lost.
pub fn delivered(v: Interval) -> u32
    ensures { result ≡ v.sent - v.lost }
{
    v.sent.saturating_sub(v.lost)
}

// Whether the counts meet document 01's rules.
#[tactic(auto, unfolding(crate::specs::Interval::counts_meet, crate::specs::Interval::count_rules, numbers::specs::Limits::intervals, numbers::specs::Limits::frames))]
fn counts_meet(v: Interval) -> bool
    ensures { result ≡ counts_meet v }
{
    let got = delivered(v);
    (v.number < limits::INTERVALS)
        & (v.sent <= limits::FRAMES)
        & (v.lost <= v.sent)
        & (v.late <= got)
        & (v.jumpy <= v.pairs)
        & ((v.pairs < got) | ((got == 0) & (v.pairs == 0)))
}

// Whether the delays meet document 01's rules. With nothing delivered both products are 0, so that with most 0 the others are 0 too.
#[tactic(auto, unfolding(crate::specs::Interval::delays_meet, crate::specs::Interval::delay_rules, crate::specs::Interval::no_delay_rules, numbers::specs::Limits::largest_delay))]
fn delays_meet(v: Interval) -> bool
    ensures { result ≡ delays_meet v }
{
    let got = delivered(v) as u64;
    ((got != 0) | (v.most == 0))
        & (v.least <= v.most)
        & (v.most <= limits::LARGEST_DELAY)
        & (v.least as u64 * got <= v.sum)
        & (v.sum <= v.most as u64 * got)
}

// The interval in `s`, if it is 48 bytes and meets every rule. Maintenance and the spare bytes are one word, 0 or 1.
#[tactic(auto, using(crate::proofs::IntervalRecord::by_rules), unfolding(crate::specs::Interval::interval_of, crate::specs::Interval::interval_rules))]
pub fn read(s: &[u8]) -> Option<Interval>
    ensures { result ≡ interval_of s.now }
{
    if s.len() != 48 {
        return None;
    }
    let v = interval_in(s);
    if counts_meet(v) & delays_meet(v) & (known::get_u64(s, 40) <= 1) {
        Some(v)
    } else {
        None
    }
}

// The counts put at the start of `part`.
#[tactic(auto, unfolding(crate::specs::Interval::count_bytes, numbers::specs::Bytes::bytes_of))]
fn put_counts(part: &mut [u8], v: Interval)
    ensures { part.new ≡ sets part.old 0 (count_bytes v) }
{
    bytes::put_u32(part, 0, v.number);
    bytes::put_u32(part, 4, v.sent);
    bytes::put_u32(part, 8, v.lost);
    bytes::put_u32(part, 12, v.late);
    bytes::put_u32(part, 16, v.pairs);
    bytes::put_u32(part, 20, v.jumpy);
}

// The delays, the maintenance flag and the spare bytes put behind the counts.
#[tactic(auto, using(numbers::proofs::Refused::as_number, crate::proofs::IntervalRecord::delays_laid))]
fn put_delays(part: &mut [u8], v: Interval)
    ensures { part.new ≡ sets part.old 24 (delay_bytes v) }
{
    bytes::put_u64(part, 24, v.sum);
    bytes::put_u32(part, 32, v.least);
    bytes::put_u32(part, 36, v.most);
    bytes::put_u64(part, 40, v.maintenance as u64);
}

// The interval's 48 bytes put into `part`.
#[tactic(auto, unfolding(crate::specs::Interval::interval_bytes, crate::specs::Interval::count_bytes, crate::specs::Interval::delay_bytes, numbers::specs::Bytes::bytes_of))]
pub fn put(part: &mut [u8], v: Interval)
    ensures { part.new ≡ sets part.old 0 (interval_bytes v) }
{
    put_counts(part, v);
    put_delays(part, v);
}

// The `k`-th record of `s`; a record that `s` does not hold is not valid.
pub fn read_at(s: &[u8], k: usize) -> Option<Interval>
    ensures { result ≡ interval_of (record_at s.now 48 k) }
{
    read(many::part(s, 48, k))
}

// Whether the whole records of `s` are valid and numbered consecutively from `first`; else the first that is not.
#[tactic(auto, using(crate::proofs::Sequences::check_steps), unfolding(crate::specs::Sequence::intervals_in))]
pub fn check(s: &[u8], first: u64) -> Result<(), Refusal>
    ensures { result ≡ checked first 0 (intervals_in s.now) }
{
    let mut next = first;
    for k in 0..s.len() / 48 {
        // `let .. else`: so document 01 has each record read taken apart.
        let Some(v) = read_at(s, k) else {
            return Err(Fault::Field.at(k as u64));
        };
        let number = v.number as u64;
        if number != next {
            return Err(Fault::Order.at(k as u64));
        }
        next = number + 1;
    }
    Ok(())
}
