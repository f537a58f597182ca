// One track of marks and its labels, by 01's rule: what the running evaluator and the label bytes are made of.
// In code as in specs/, a mark says high and a label says unavailable.
#![tactic(auto)]

ghost use Rattle.std.specs.Prelude.{◌≡◌, ◌-◌, ◌+◌, ◌*◌, ◌/◌, ◌%◌, ◌<◌, ◌≤◌};
ghost use Rattle.rule.specs.Evaluator.{stepped, reachable};
ghost use Rattle.rule.specs.Marks.{high_loss, high_composite, weighed, indicator, nothing_weighed};

// A value of each of the two tracks.
#[derive(Clone, Copy)]
pub struct Both<T> {
    pub loss: T,
    pub composite: T,
}

impl<T> Both<T> {
    // What `f` makes of the two values of each track.
    pub fn zip_with<U, V, F: Fn(T, U) -> V>(self, other: Both<U>, f: F) -> Both<V>
        requires loss { F.pre f self.loss other.loss }
        requires composite { F.pre f self.composite other.composite }
        ensures loss { F.post f self.loss other.loss result.loss }
        ensures composite { F.post f self.composite other.composite result.composite }
    {
        Both {
            loss: f(self.loss, other.loss),
            composite: f(self.composite, other.composite),
        }
    }
}

// What a running evaluator keeps of one track: the last label that it settled, and how many marks behind it speak against it. That these are
// fewer than n is no invariant of it: n is the settings'.
#[derive(Clone, Copy)]
pub struct Track {
    pub label: bool,
    pub pending: u64,
}

// What a mark does to it: the track after it, and how many labels it settled, all as the mark itself says. The count is no Option: none settled are 0
// settled, and as many labels are written or counted as it says.
#[derive(Clone, Copy)]
pub struct Turned {
    pub track: Track,
    pub count: u64,
}

// A mark of a track, n of which in a row turn its label.
#[tactic(auto, unfolding(crate::specs::Evaluator::settles, crate::specs::Evaluator::gain, crate::specs::Evaluator::turn))]
pub fn advance(n: u64, t: Track, mark: bool) -> Turned
    requires { t.pending < n }
    ensures { result ≡ stepped n t mark }
{
    let count = t.pending + 1;
    if (mark == t.label) | (n <= count) {
        return Turned {
            track: Track {
                label: mark,
                pending: 0,
            },
            count,
        };
    }
    Turned {
        track: Track {
            label: t.label,
            pending: count,
        },
        count: 0,
    }
}

// Can a track be left so by some marks of the number fed? For any numbers at all.
#[tactic(auto, unfolding(crate::specs::Evaluator::reachable))]
pub fn can_hold(n: u64, fed: u64, t: Track) -> bool
    ensures { result ≡ reachable n fed t }
{
    let pending = t.pending;
    if n <= pending {
        return false;
    }
    if t.label {
        if fed < n {
            return false;
        }
        return pending <= fed - n;
    }
    pending <= fed
}

// What the marks of an interval are made of. `Interval` and `measure::Tally` have these five too, among others and in the order of the record.
#[derive(Clone, Copy)]
pub struct Counts {
    pub sent: u32,
    pub lost: u32,
    pub late: u32,
    pub pairs: u32,
    pub jumpy: u32,
}

// A ratio as its two parts: ratios are compared by their cross products, with no quotient.
#[derive(Clone, Copy)]
pub struct Fraction {
    pub top: u64,
    pub bottom: u64,
}

// Whether the loss is above num/den.
#[tactic(auto, unfolding(crate::specs::Marks::high_loss))]
pub fn high_loss(num: u32, den: u32, x: Counts) -> bool
    ensures { result ≡ high_loss num den x }
{
    (num as u64) * (x.sent as u64) < (x.lost as u64) * (den as u64)
}

// A count that has the weight, else 0.
fn share(count: u32, weight: u8) -> u32
    ensures { result ≡ count * (weight % 2) }
{
    if weight % 2 == 0 { 0 } else { count }
}

// Three counts under the weights.
#[tactic(auto, unfolding(crate::specs::Marks::weighed))]
fn weigh(w: u8, loss: u32, delay: u32, variation: u32) -> u64
    ensures { (result ≡ weighed w loss delay variation) × (result < 13_000_000_000) }
{
    (share(loss, w) as u64) + (share(delay, w / 2) as u64) + (share(variation, w / 4) as u64)
}

// Whether the weights leave nothing to divide by.
#[tactic(auto, unfolding(crate::specs::Marks::nothing_weighed))]
fn none_weighed(w: u8, x: Counts) -> bool
    ensures { result ≡ nothing_weighed w x }
{
    let delivered = x.sent.saturating_sub(x.lost);
    (w % 2 == 0) & (delivered == 0) | (w % 2 == 0) & (w / 2 % 2 == 0) & (x.pairs == 0)
}

// The composite indicator D.
#[tactic(auto, unfolding(crate::specs::Marks::indicator))]
fn composite(w: u8, x: Counts) -> Fraction
    ensures { (result ≡ indicator w x) × (result.top < 13_000_000_000) × (result.bottom < 13_000_000_000) }
{
    if x.sent == 0 {
        return Fraction { top: 0, bottom: 1 };
    }
    if none_weighed(w, x) {
        return Fraction { top: 1, bottom: 1 };
    }
    let delivered = x.sent.saturating_sub(x.lost);
    Fraction {
        top: weigh(w, x.lost, x.late, x.jumpy),
        bottom: weigh(w, x.sent, delivered, x.pairs),
    }
}

// Whether D is above num/den.
#[tactic(auto, unfolding(crate::specs::Marks::high_composite, crate::specs::Marks::above))]
pub fn high_composite(w: u8, num: u32, den: u32, x: Counts) -> bool
    requires { (num ≤ 1_000_000_000) × (den ≤ 1_000_000_000) }
    ensures { result ≡ high_composite w num den x }
{
    let d = composite(w, x);
    (num as u64) * d.bottom < d.top * (den as u64)
}
