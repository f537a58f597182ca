// A track read out of bytes: its values, and whether its words are ones that a writer makes. Bytes and a place in them, as in `writing`. The words for
// a run's form, a label and a track's kind are the record's numbers, of types that are another crate's.
ghost use Rattle.std.specs.Prelude.{◌≡◌, ◌+◌, ◌≤◌, length};
ghost use Rattle.layout.specs.Reading.{load_in, figures_in, edges_in, run_in, label_in, middle_in, track_in, load_words, run_words, middle_words, words_meet};

use numbers::known;
use numbers::limits::LARGEST_DELAY;
use runs::figures;
use runs::figures::{Figures, Load};
use runs::middles::{Label, Middle};
use runs::run::{Edges, Run};
use tracks::Track;

// The load from `at` on. The bytes hold the least delay.
#[tactic(auto, unfolding(crate::specs::Reading::load_in))]
fn load_in(s: &[u8], at: usize) -> Load
    requires { at + 36 ≤ length s.now }
    ensures { result ≡ load_in s.now at }
{
    let sent = known::get_u64(s, at + 12);
    let lost = known::get_u64(s, at + 20);
    let least = known::get_u32(s, at + 8);
    Load {
        count: known::get_u32(s, at),
        sent,
        lost,
        sum: known::get_u64(s, at + 28),
        most: known::get_u32(s, at + 4),
        headroom: figures::turned(sent, lost, least),
    }
}

// The figures from `at` on.
#[tactic(auto, unfolding(crate::specs::Reading::figures_in))]
fn figures_in(s: &[u8], at: usize) -> Figures
    requires { at + 44 ≤ length s.now }
    ensures { result ≡ figures_in s.now at }
{
    Figures {
        load: load_in(s, at + 8),
        high: known::get_u32(s, at),
        runs: known::get_u32(s, at + 4),
    }
}

// Edges of a form: 2 is solid. It is a number of the record, and `Edges` is another crate's: no `From`.
#[tactic(auto, unfolding(crate::specs::Reading::edges_in))]
fn edges_in(form: u32, pre: u32, inner: u32, post: u32) -> Edges
    ensures { result ≡ edges_in form pre inner post }
{
    match form {
        2 => Edges::Solid(pre),
        _ => Edges::Split { pre, inner, post },
    }
}

// The run from `at` on.
#[tactic(auto, unfolding(crate::specs::Reading::run_in))]
fn run_in(s: &[u8], at: usize) -> Run
    requires { at + 56 ≤ length s.now }
    ensures { result ≡ run_in s.now at }
{
    let form = known::get_u32(s, at);
    Run {
        mark: form != 0,
        len: known::get_u32(s, at + 4),
        load: load_in(s, at + 20),
        edges: edges_in(
            form,
            known::get_u32(s, at + 8),
            known::get_u32(s, at + 12),
            known::get_u32(s, at + 16),
        ),
    }
}

// A label of a word: 0 inherits, 1 available, else unavailable. Not a `From`, as both types are other crates'.
#[tactic(auto, unfolding(crate::specs::Reading::label_in))]
fn label_in(word: u32) -> Label
    ensures { result ≡ label_in word }
{
    match word {
        0 => Label::Inherits,
        1 => Label::Says(false),
        _ => Label::Says(true),
    }
}

// The middle from `at` on.
#[tactic(auto, unfolding(crate::specs::Reading::middle_in))]
fn middle_in(s: &[u8], at: usize) -> Middle
    requires { at + 96 ≤ length s.now }
    ensures { result ≡ middle_in s.now at }
{
    Middle {
        label: label_in(known::get_u32(s, at)),
        inherited: figures_in(s, at + 8),
        available: figures_in(s, at + 52),
        unavailable: known::get_u32(s, at + 4),
    }
}

// The track from `at` on.
#[tactic(auto, unfolding(crate::specs::Reading::track_in))]
pub fn track_in(s: &[u8], at: usize) -> Track
    requires { at + 216 ≤ length s.now }
    ensures { result ≡ track_in s.now at }
{
    match known::get_u64(s, at) {
        0 => Track::Nothing,
        1 => Track::One(run_in(s, at + 8)),
        _ => Track::Many(
            run_in(s, at + 8),
            middle_in(s, at + 64),
            run_in(s, at + 160),
        ),
    }
}

// Whether the least delay of the load from `at` on is at most the largest delay.
#[tactic(auto, unfolding(crate::specs::Reading::load_words, numbers::specs::Limits::largest_delay))]
fn load_words(s: &[u8], at: usize) -> bool
    requires { at + 36 ≤ length s.now }
    ensures { result ≡ load_words s.now at }
{
    known::get_u32(s, at + 8) <= LARGEST_DELAY
}

// Whether the words of the run from `at` on are ones that a writer makes.
#[tactic(auto, unfolding(crate::specs::Reading::run_words))]
fn run_words(s: &[u8], at: usize) -> bool
    requires { at + 56 ≤ length s.now }
    ensures { result ≡ run_words s.now at }
{
    let form = known::get_u32(s, at);
    (form <= 2)
        & ((form != 2) | ((known::get_u32(s, at + 12) == 0) & (known::get_u32(s, at + 16) == 0)))
        & load_words(s, at + 20)
}

// Whether the words of the middle from `at` on are ones that a writer makes.
#[tactic(auto, unfolding(crate::specs::Reading::middle_words))]
fn middle_words(s: &[u8], at: usize) -> bool
    requires { at + 96 ≤ length s.now }
    ensures { result ≡ middle_words s.now at }
{
    (known::get_u32(s, at) <= 2) & load_words(s, at + 16) & load_words(s, at + 60)
}

// Whether the words of the track from `at` on are ones that a writer makes.
#[tactic(auto, unfolding(crate::specs::Reading::words_meet))]
pub fn words_meet(s: &[u8], at: usize) -> bool
    requires { at + 216 ≤ length s.now }
    ensures { result ≡ words_meet s.now at }
{
    match known::get_u64(s, at) {
        0 => known::are_zero(s, at + 8, 208),
        1 => run_words(s, at + 8) & known::are_zero(s, at + 64, 152),
        2 => run_words(s, at + 8) & middle_words(s, at + 64) & run_words(s, at + 160),
        _ => false,
    }
}
