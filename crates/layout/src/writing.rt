// A track put into bytes. Each piece is put from a place on: a part lent for it would need a split of the slice, and a bound, for each of the eight.
ghost use Rattle.std.specs.Prelude.{◌≡◌, ◌+◌, ◌≤◌, length};
ghost use Rattle.std.proofs.lemmas.List.Edits.{sets};
ghost use Rattle.layout.specs.Bytes.{load_bytes, figures_bytes, form_of, pre_of, inner_of, post_of, shape_bytes, run_bytes, label_word, middle_bytes, blank_run, piece_bytes, track_bytes};

use numbers::known;
use runs::figures::{Figures, Load};
use runs::middles::{Label, Middle};
use runs::run::{Edges, Run};
use runs::{figures, middles};
use tracks::Track;

// A load put from `at` on: 36 bytes, with the least delay for the headroom.
#[tactic(auto, using(crate::proofs::Laying::behind), unfolding(crate::specs::Bytes::load_bytes))]
fn put_load(out: &mut [u8], at: usize, l: Load)
    requires { at + 36 ≤ length out.old }
    ensures { out.new ≡ sets out.old at (load_bytes l) }
{
    let least = figures::turned(l.sent, l.lost, l.headroom);
    known::put_u32(out, at, l.count);
    known::put_u32(out, at + 4, l.most);
    known::put_u32(out, at + 8, least);
    known::put_u64(out, at + 12, l.sent);
    known::put_u64(out, at + 20, l.lost);
    known::put_u64(out, at + 28, l.sum);
}

// Figures put from `at` on: 44 bytes.
#[tactic(auto, using(crate::proofs::Laying::behind), unfolding(crate::specs::Bytes::figures_bytes))]
fn put_figures(out: &mut [u8], at: usize, f: Figures)
    requires { at + 44 ≤ length out.old }
    ensures { out.new ≡ sets out.old at (figures_bytes f) }
{
    known::put_u32(out, at, f.high);
    known::put_u32(out, at + 4, f.runs);
    put_load(out, at + 8, f.load);
}

// The form of a run: 0 low, 1 high and split, 2 high and solid. It is a number of the record, and `Edges` is another crate's: no `From`.
fn form_of(mark: bool, e: Edges) -> u32
    ensures { result ≡ form_of mark e }
{
    match (mark, e) {
        (false, _) => 0,
        (true, Edges::Split { .. }) => 1,
        (true, Edges::Solid(_)) => 2,
    }
}

// What touches the left end, neither end, the right end.
fn parts_of(e: Edges) -> (u32, u32, u32)
    ensures { result ≡ (pre_of e, inner_of e, post_of e) }
{
    match e {
        Edges::Solid(k) => (k, 0, 0),
        Edges::Split { pre, inner, post } => (pre, inner, post),
    }
}

// What a run has beside its load, put from `at` on: 20 bytes.
#[tactic(auto, using(crate::proofs::Laying::behind), unfolding(crate::specs::Bytes::shape_bytes))]
fn put_shape(out: &mut [u8], at: usize, r: Run)
    requires { at + 20 ≤ length out.old }
    ensures { out.new ≡ sets out.old at (shape_bytes r) }
{
    let (pre, inner, post) = parts_of(r.edges);
    known::put_u32(out, at, form_of(r.mark, r.edges));
    known::put_u32(out, at + 4, r.len);
    known::put_u32(out, at + 8, pre);
    known::put_u32(out, at + 12, inner);
    known::put_u32(out, at + 16, post);
}

// A run put from `at` on: 56 bytes.
#[tactic(auto, using(crate::proofs::Laying::behind), unfolding(crate::specs::Bytes::run_bytes))]
fn put_run(out: &mut [u8], at: usize, r: Run)
    requires { at + 56 ≤ length out.old }
    ensures { out.new ≡ sets out.old at (run_bytes r) }
{
    put_shape(out, at, r);
    put_load(out, at + 20, r.load);
}

// A label as a number: 0 inherits, 1 available, 2 unavailable. Not a `From`, as both types are other crates'.
fn label_word(l: Label) -> u32
    ensures { result ≡ label_word l }
{
    match l {
        Label::Inherits => 0,
        Label::Says(false) => 1,
        Label::Says(true) => 2,
    }
}

// A middle put from `at` on: 96 bytes.
#[tactic(auto, using(crate::proofs::Laying::behind), unfolding(crate::specs::Bytes::middle_bytes))]
fn put_middle(out: &mut [u8], at: usize, m: Middle)
    requires { at + 96 ≤ length out.old }
    ensures { out.new ≡ sets out.old at (middle_bytes m) }
{
    known::put_u32(out, at, label_word(m.label));
    known::put_u32(out, at + 4, m.unavailable);
    put_figures(out, at + 8, m.inherited);
    put_figures(out, at + 52, m.available);
}

// A run that is not there.
fn blank_run() -> Run
    ensures { result ≡ blank_run }
{
    Run {
        mark: false,
        len: 0,
        load: figures::idle(),
        edges: Edges::NONE,
    }
}

// The pieces of a track put from `at` on: 216 bytes.
#[tactic(auto, using(crate::proofs::Laying::behind), unfolding(crate::specs::Bytes::piece_bytes))]
fn put_pieces(out: &mut [u8], at: usize, kind: u64, first: Run, m: Middle, last: Run)
    requires { at + 216 ≤ length out.old }
    ensures { out.new ≡ sets out.old at (piece_bytes kind first m last) }
{
    known::put_u64(out, at, kind);
    put_run(out, at + 8, first);
    put_middle(out, at + 64, m);
    put_run(out, at + 160, last);
}

// A track put from `at` on: 216 bytes. What it does not have leaves 0.
#[tactic(auto, unfolding(crate::specs::Bytes::track_bytes))]
pub fn put_track(out: &mut [u8], at: usize, t: Track)
    requires { at + 216 ≤ length out.old }
    ensures { out.new ≡ sets out.old at (track_bytes t) }
{
    match t {
        Track::Nothing => put_pieces(out, at, 0, blank_run(), middles::unit(), blank_run()),
        Track::One(r) => put_pieces(out, at, 1, r, middles::unit(), blank_run()),
        Track::Many(first, between, last) => put_pieces(out, at, 2, first, between, last),
    }
}
