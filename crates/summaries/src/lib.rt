// A summary in its 1,024 bytes.
#![tactic(auto)]

ghost use Rattle.std.specs.Prelude.{◌≡◌, length};
ghost use Rattle.summaries.specs.Stored.{summary_in, header_meets, tracks_meet, summary_of, summary_bytes};

use layout::{reading, writing};
use numbers::{known, limits};
use runs::run::Lengths;
use settings::LabelSettings;
use tracks::Track;

// A stretch: its first number, the number after its last, and what its tracks hold under the label settings.
#[derive(Clone, Copy)]
pub struct Summary {
    pub first: u32,
    pub after: u32,
    pub label: LabelSettings,
    pub loss: Track,
    pub composite: Track,
}

// The values that stand in 1,024 bytes. They are a part of a longer buffer here and in `put`, so a slice with its length in a clause, and no array.
#[tactic(auto, unfolding(crate::specs::Stored::summary_in))]
fn summary_in(s: &[u8]) -> Summary
    requires { length s.now ≡ 1024 }
    ensures { result ≡ summary_in s.now }
{
    Summary {
        first: known::get_u32(s, 0),
        after: known::get_u32(s, 4),
        label: settings::label_in(&s[8..32]),
        loss: reading::track_in(s, 32),
        composite: reading::track_in(s, 248),
    }
}

// Whether the header, the words of both tracks and the spare bytes meet their rules.
#[tactic(auto, unfolding(crate::specs::Stored::header_meets, crate::specs::Stored::header_rules, numbers::specs::Limits::intervals))]
fn header_meets(s: &[u8], v: Summary) -> bool
    requires { length s.now ≡ 1024 }
    ensures { result ≡ header_meets s.now v }
{
    (v.first <= v.after)
        & (v.after <= limits::INTERVALS)
        & settings::label_meets(v.label)
        & (s[15] == 0)
        & reading::words_meet(s, 32)
        & reading::words_meet(s, 248)
        & known::are_zero(s, 464, 560)
}

// Whether both tracks meet their rules, and count the same intervals.
#[tactic(auto, using(crate::proofs::Validity::count_of), unfolding(crate::specs::Stored::tracks_meet, crate::specs::Stored::track_rules))]
fn tracks_meet(v: Summary) -> bool
    ensures { result ≡ tracks_meet v }
{
    // written out: what a function gives is known by an equation, which the proofs above would have to carry
    let by = Lengths {
        n: v.label.n as u32,
        p: v.label.p as u32,
    };
    // locals, as a part of a struct that is handed on where it stands is copied once more
    let loss = v.loss;
    let composite = v.composite;
    let len = v.after.saturating_sub(v.first);
    if track_rules::track_meets(by, len, loss) {
        if track_rules::track_meets(by, len, composite) {
            return tracks::count_in(loss) == tracks::count_in(composite);
        }
    }
    false
}

// The summary in `s`, if it is 1,024 bytes and meets every rule.
#[tactic(auto, unfolding(crate::specs::Stored::summary_of, crate::specs::Stored::summary_rules))]
pub fn read(s: &[u8]) -> Option<Summary>
    ensures { result ≡ summary_of s.now }
{
    if s.len() != 1024 {
        return None;
    }
    let v = summary_in(s);
    if header_meets(s, v) & tracks_meet(v) {
        Some(v)
    } else {
        None
    }
}

// A summary's 1,024 bytes put into `part`.
#[tactic(auto, using(crate::proofs::Placing::put_whole))]
pub fn put(part: &mut [u8], v: Summary)
    requires { length part.old ≡ 1024 }
    ensures { part.new ≡ summary_bytes v }
{
    // locals, as above
    let loss = v.loss;
    let composite = v.composite;
    known::put_u32(part, 0, v.first);
    known::put_u32(part, 4, v.after);
    settings::put_label(&mut part[8..32], v.label);
    writing::put_track(part, 32, loss);
    writing::put_track(part, 248, composite);
    known::put_zeros(part, 464, 560);
}
