// Runs of equal marks: made of one interval, glued together, shut, put in maintenance.
ghost use Rattle.std.specs.Prelude.{◌≡◌, ◌+◌, ◌<◌, ◌≤◌};
ghost use Rattle.runs.specs.Runs.{long, one, tie, closed, load_of, single, glue, figures_of, quiet_run};
ghost use Rattle.runs.specs.Valid.{span_of, RunsFit};

use crate::figures;
use crate::figures::{Figures, Load};
use tallies::Marked;

// The two lengths that labels and runs go by: n intervals of one mark in a row turn the label, and p high ones in a row make a run.
#[derive(Clone, Copy)]
pub struct Lengths {
    pub n: u32,
    pub p: u32,
}

// Where maintenance splits the counted intervals of a run of high marks. Solid: nowhere, and all of them count. Split: how many touch
// the left end, how many stretches of length p or more touch neither end, and how many touch the right end. No bound is an invariant: a record's
// words are read into it before `track_rules` tests them.
#[derive(Clone, Copy)]
pub enum Edges {
    Solid(u32),
    Split { pre: u32, inner: u32, post: u32 },
}

impl Edges {
    // Those of a run of which no interval counts.
    pub const NONE: Edges = Edges::Split {
        pre: 0,
        inner: 0,
        post: 0,
    };
}

// A run: its mark, how many intervals it has, and what those of them add up to that count and where they stand.
#[derive(Clone, Copy)]
pub struct Run {
    pub mark: bool,
    pub len: u32,
    pub load: Load,
    pub edges: Edges,
}

// k in a row make a run of length p or more; none does where p is 0.
#[tactic(auto, unfolding(crate::specs::Runs::long))]
fn long(p: u32, k: u32) -> bool
    ensures { result ≡ long p k }
{
    (p != 0) & (p <= k)
}

// 1 where k in a row make a run of length p or more.
fn runs_of(p: u32, k: u32) -> u32
    ensures value { result ≡ one (long p k) }
    ensures small { result ≤ 1 }
{
    u32::from(long(p, k))
}

// The edges of two stretches, one after the other.
#[tactic(auto, unfolding(crate::specs::Runs::tie, crate::specs::Valid::span_of))]
fn tie(p: u32, a: Edges, b: Edges) -> Edges
    requires { span_of a + span_of b < 4294967295 }
    ensures { result ≡ tie p a b }
{
    match (a, b) {
        (Edges::Solid(j), Edges::Solid(k)) => Edges::Solid(j + k),
        (Edges::Solid(j), Edges::Split { pre, inner, post }) => Edges::Split {
            pre: j + pre,
            inner,
            post,
        },
        (Edges::Split { pre, inner, post }, Edges::Solid(k)) => Edges::Split {
            pre,
            inner,
            post: post + k,
        },
        (
            Edges::Split { pre, inner, post },
            Edges::Split {
                pre: next,
                inner: more,
                post: end,
            },
        ) => Edges::Split {
            pre,
            inner: inner + runs_of(p, post + next) + more,
            post: end,
        },
    }
}

// The stretches of length p or more, where neither end can grow any more.
#[tactic(auto, unfolding(crate::specs::Runs::closed, crate::specs::Valid::span_of))]
fn closed(p: u32, e: Edges) -> u32
    requires { span_of e < 4294967294 }
    ensures { result ≡ closed p e }
{
    match e {
        Edges::Solid(k) => runs_of(p, k),
        Edges::Split { pre, inner, post } => runs_of(p, pre) + inner + runs_of(p, post),
    }
}

// The load of one interval; in maintenance it has none.
#[tactic(auto, unfolding(crate::specs::Runs::load_of, crate::specs::Runs::gross))]
fn load_of(x: Marked) -> Load
    ensures { result ≡ load_of x }
{
    if x.maintenance {
        return figures::idle();
    }
    let sent = x.sent as u64;
    let lost = x.lost as u64;
    Load {
        count: 1,
        sent,
        lost,
        sum: x.sum,
        most: x.most,
        headroom: figures::turned(sent, lost, x.least),
    }
}

// The run of one interval.
#[tactic(auto, unfolding(crate::specs::Runs::single))]
pub fn single(x: Marked) -> Run
    ensures { result ≡ single x }
{
    let edges = if x.mark & !x.maintenance {
        Edges::Solid(1)
    } else {
        Edges::NONE
    };
    Run {
        mark: x.mark,
        len: 1,
        load: load_of(x),
        edges,
    }
}

// Two runs of one mark, one after the other.
#[tactic(auto, unfolding(crate::specs::Runs::glue))]
pub fn glue(p: u32, a: Run, b: Run) -> Run
    requires { RunsFit a b }
    ensures { result ≡ glue p a b }
{
    Run {
        mark: a.mark,
        len: a.len + b.len,
        load: figures::both(a.load, b.load),
        edges: tie(p, a.edges, b.edges),
    }
}

// The figures of a run that can no longer grow. All that count are high, or none.
#[tactic(auto, unfolding(crate::specs::Runs::figures_of))]
pub fn figures_of(p: u32, r: Run) -> Figures
    requires { span_of r.edges < 4294967294 }
    ensures { result ≡ figures_of p r }
{
    Figures {
        load: r.load,
        high: if r.mark { r.load.count } else { 0 },
        runs: closed(p, r.edges),
    }
}

// The same run, all in maintenance.
#[tactic(auto, unfolding(crate::specs::Runs::quiet_run))]
pub fn quiet_run(r: Run) -> Run
    ensures { result ≡ quiet_run r }
{
    Run {
        load: figures::idle(),
        edges: Edges::NONE,
        ..r
    }
}
