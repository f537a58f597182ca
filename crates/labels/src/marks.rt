// The two marks of an interval under label settings: high loss against C, and D against U.
ghost use Rattle.std.specs.Prelude.{◌≡◌, true};
ghost use Rattle.numbers.specs.Many.{record_at};
ghost use Rattle.settings.specs.Settings.{label_meets};
ghost use Rattle.labels.specs.Marked.{counts_of, counts_in, both_high};

use intervals::Interval;
use numbers::{bytes, limits, many};
use rule::{Both, Counts};
use settings::LabelSettings;

// What the marks are made of. No `From`: both types are another crate's.
fn counts_of(v: Interval) -> Counts
    ensures { result ≡ counts_of v }
{
    Counts {
        sent: v.sent,
        lost: v.lost,
        late: v.late,
        pairs: v.pairs,
        jumpy: v.jumpy,
    }
}

// The same out of the bytes of a record.
#[tactic(auto, unfolding(crate::specs::Marked::counts_in))]
fn counts_in(s: &[u8]) -> Counts
    ensures { result ≡ counts_in s.now }
{
    Counts {
        sent: bytes::get_u32(s, 4),
        lost: bytes::get_u32(s, 8),
        late: bytes::get_u32(s, 12),
        pairs: bytes::get_u32(s, 16),
        jumpy: bytes::get_u32(s, 20),
    }
}

// Of the `k`-th record of a slice.
pub fn counts_at(s: &[u8], k: usize) -> Counts
    ensures { result ≡ counts_in (record_at s.now 48 k) }
{
    counts_in(many::part(s, 48, k))
}

// The marks of counts.
#[tactic(auto, using(settings::proofs::SettingsRecord::label_valid), unfolding(numbers::specs::Limits::million))]
pub fn high(l: LabelSettings, x: Counts) -> Both<bool>
    requires { label_meets l ≡ true }
    ensures { result ≡ both_high l x }
{
    Both {
        loss: rule::high_loss(l.c, limits::MILLION, x),
        composite: rule::high_composite(l.weights, l.u, limits::MILLION, x),
    }
}

// The marks of an interval.
pub fn marks(l: LabelSettings, v: Interval) -> Both<bool>
    requires { label_meets l ≡ true }
    ensures { result ≡ both_high l (counts_of v) }
{
    high(l, counts_of(v))
}
