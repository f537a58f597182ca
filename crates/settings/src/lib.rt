// The settings record, 64 bytes: its values, its rules, and the label settings, which are its first 24 bytes.
#![tactic(auto)]

ghost use Rattle.std.specs.Prelude.{◌≡◌};
ghost use Rattle.std.proofs.lemmas.List.Edits.{sets};
ghost use Rattle.settings.specs.Settings.{label_in, label_meets, objectives_in, objectives_meet, settings_of, shape_bytes, threshold_bytes, label_bytes};

use numbers::{bytes, limits};

// What labels depend on.
#[derive(Clone, Copy, PartialEq, Eq)]
pub struct LabelSettings {
    // interval length in ms
    pub length: u32,
    pub n: u8,
    pub p: u8,
    // loss 1, delay 2, variation 4
    pub weights: u8,
    // C and U, in parts per million
    pub c: u32,
    pub u: u32,
    // DL and Jt, in ns
    pub dl: u32,
    pub jt: u32,
}

#[derive(Clone, Copy)]
pub struct Settings {
    pub label: LabelSettings,
    // least availability, least composite and most loss, in parts per million
    pub availability: u32,
    pub composite: u32,
    pub loss: u32,
    // most mean delay, in ns
    pub mean: u32,
    // most high loss intervals and most runs
    pub high: u32,
    pub runs: u32,
    // Pr, in parts per million
    pub percentile: u32,
    // most delay and most range, in ns
    pub delay: u32,
    pub range: u32,
}

// The label settings that stand at the start of `s`.
#[tactic(auto, unfolding(crate::specs::Settings::label_in))]
pub fn label_in(s: &[u8]) -> LabelSettings
    ensures { result ≡ label_in s.now }
{
    LabelSettings {
        length: bytes::get_u32(s, 0),
        n: bytes::get_u8(s, 4),
        p: bytes::get_u8(s, 5),
        weights: bytes::get_u8(s, 6),
        c: bytes::get_u32(s, 8),
        u: bytes::get_u32(s, 12),
        dl: bytes::get_u32(s, 16),
        jt: bytes::get_u32(s, 20),
    }
}

// Whether label settings meet document 01's rules. A test and no invariant of the type: a record's words, and an evaluator's, are read into it before they are tested.
#[tactic(auto, unfolding(crate::specs::Settings::label_meets, crate::specs::Settings::label_rules, numbers::specs::Limits::largest_delay, numbers::specs::Limits::million))]
pub fn label_meets(l: LabelSettings) -> bool
    ensures { result ≡ label_meets l }
{
    ((100 <= l.length) & (l.length <= 60_000))
        & ((1 <= l.n) & (l.n <= 64))
        & ((l.p == 0) | ((2 <= l.p) & (l.p < l.n)))
        & ((1 <= l.weights) & (l.weights <= 7))
        & ((1 <= l.c) & (l.c < limits::MILLION))
        & ((1 <= l.u) & (l.u < limits::MILLION))
        & (l.dl <= limits::LARGEST_DELAY)
        & (l.jt <= limits::LARGEST_DELAY)
}

// The settings whose label settings are `l`, with the objectives that stand in `s`.
#[tactic(auto, unfolding(crate::specs::Settings::objectives_in))]
fn objectives_in(l: LabelSettings, s: &[u8]) -> Settings
    ensures { result ≡ objectives_in l s.now }
{
    Settings {
        label: l,
        availability: bytes::get_u32(s, 24),
        composite: bytes::get_u32(s, 28),
        loss: bytes::get_u32(s, 32),
        mean: bytes::get_u32(s, 36),
        high: bytes::get_u32(s, 40),
        runs: bytes::get_u32(s, 44),
        percentile: bytes::get_u32(s, 48),
        delay: bytes::get_u32(s, 52),
        range: bytes::get_u32(s, 56),
    }
}

// Whether objectives meet document 01's rules.
#[tactic(auto, unfolding(crate::specs::Settings::objectives_meet, crate::specs::Settings::objective_rules, numbers::specs::Limits::largest_delay, numbers::specs::Limits::million))]
fn objectives_meet(v: Settings) -> bool
    ensures { result ≡ objectives_meet v }
{
    (v.availability <= limits::MILLION)
        & (v.composite <= limits::MILLION)
        & (v.loss <= limits::MILLION)
        & (v.mean <= limits::LARGEST_DELAY)
        & ((v.label.p != 0) | (v.runs == 0))
        & ((1 <= v.percentile) & (v.percentile <= limits::MILLION))
        & (v.delay <= limits::LARGEST_DELAY)
        & (v.range <= limits::LARGEST_DELAY)
}

// The settings in `s`, if it is 64 bytes and every field and spare byte meets its rule.
#[tactic(auto, unfolding(crate::specs::Settings::settings_of, crate::specs::Settings::settings_rules))]
pub fn read(s: &[u8]) -> Option<Settings>
    ensures { result ≡ settings_of s.now }
{
    if s.len() != 64 {
        return None;
    }
    let l = label_in(s);
    let v = objectives_in(l, s);
    if label_meets(l)
        & objectives_meet(v)
        & (bytes::get_u8(s, 7) == 0)
        & (bytes::get_u32(s, 60) == 0)
    {
        Some(v)
    } else {
        None
    }
}

// What stands before C put at the start of `part`.
#[tactic(auto, unfolding(crate::specs::Settings::shape_bytes, numbers::specs::Bytes::bytes_of))]
fn put_shape(part: &mut [u8], l: LabelSettings)
    ensures { part.new ≡ sets part.old 0 (shape_bytes l) }
{
    bytes::put_u32(part, 0, l.length);
    bytes::put_u8(part, 4, l.n);
    bytes::put_u8(part, 5, l.p);
    bytes::put_u8(part, 6, l.weights);
    bytes::put_u8(part, 7, 0);
}

// The thresholds put behind it.
#[tactic(auto, unfolding(crate::specs::Settings::threshold_bytes, numbers::specs::Bytes::bytes_of))]
fn put_thresholds(part: &mut [u8], l: LabelSettings)
    ensures { part.new ≡ sets part.old 8 (threshold_bytes l) }
{
    bytes::put_u32(part, 8, l.c);
    bytes::put_u32(part, 12, l.u);
    bytes::put_u32(part, 16, l.dl);
    bytes::put_u32(part, 20, l.jt);
}

// The 24 bytes of label settings put into `part`.
#[tactic(auto, unfolding(crate::specs::Settings::label_bytes, crate::specs::Settings::shape_bytes, crate::specs::Settings::threshold_bytes, numbers::specs::Bytes::bytes_of))]
pub fn put_label(part: &mut [u8], l: LabelSettings)
    ensures { part.new ≡ sets part.old 0 (label_bytes l) }
{
    put_shape(part, l);
    put_thresholds(part, l);
}
