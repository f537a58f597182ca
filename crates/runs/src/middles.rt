// What lies between two runs, up to the label that may still come from the left.
ghost use Rattle.std.specs.Prelude.{◌≡◌, ◌<◌};
ghost use Rattle.runs.specs.Middles.{unit, placed, verdict, shut, over, times, quiet_middle};
ghost use Rattle.runs.specs.Valid.{span_of, MiddlesFit, ShutFits};

use crate::figures::Figures;
use crate::run::{Lengths, Run};
use crate::{figures, run};

// The label behind a middle: that of the run before it, or one of its own (true is unavailable). Not an Option<bool>: `None` and `Some(true)` would
// name neither case, and the laws of middles speak of both by name.
#[derive(Clone, Copy)]
pub enum Label {
    Inherits,
    Says(bool),
}

// What lies between two runs: what still takes the label from the left, what is available, and how many are unavailable.
#[derive(Clone, Copy)]
pub struct Middle {
    pub label: Label,
    pub inherited: Figures,
    pub available: Figures,
    pub unavailable: u32,
}

// Nothing between.
#[tactic(auto, unfolding(crate::specs::Middles::unit))]
pub fn unit() -> Middle
    ensures { result ≡ unit }
{
    Middle {
        label: Label::Inherits,
        inherited: figures::none(),
        available: figures::none(),
        unavailable: 0,
    }
}

// Intervals that take the label l.
#[tactic(auto, unfolding(crate::specs::Middles::placed, crate::specs::Middles::unit))]
pub fn placed(l: Label, f: Figures) -> Middle
    ensures { result ≡ placed l f }
{
    let empty = Middle { label: l, ..unit() };
    match l {
        Label::Inherits => Middle {
            inherited: f,
            ..empty
        },
        Label::Says(false) => Middle {
            available: f,
            ..empty
        },
        Label::Says(true) => Middle {
            unavailable: f.load.count,
            ..empty
        },
    }
}

// The label of a run that can no longer grow.
#[tactic(auto, unfolding(crate::specs::Middles::verdict))]
fn verdict(n: u32, r: Run) -> Label
    ensures { result ≡ verdict n r }
{
    if n <= r.len {
        Label::Says(r.mark)
    } else {
        Label::Inherits
    }
}

// A run that can no longer grow.
#[tactic(auto, unfolding(crate::specs::Middles::shut))]
pub fn shut(by: Lengths, r: Run) -> Middle
    requires { span_of r.edges < 4294967294 }
    ensures { result ≡ shut by.n by.p r }
{
    placed(verdict(by.n, r), run::figures_of(by.p, r))
}

// The later label, or else the earlier one.
#[tactic(auto, unfolding(crate::specs::Middles::over))]
fn over(l: Label, k: Label) -> Label
    ensures { result ≡ over l k }
{
    match k {
        Label::Inherits => l,
        Label::Says(_) => k,
    }
}

// Two middles, one after the other: what the later one inherits goes where the label of the earlier one says.
#[tactic(auto, unfolding(crate::specs::Middles::times, crate::specs::Middles::times_by))]
pub fn times(a: Middle, b: Middle) -> Middle
    requires { MiddlesFit a b }
    ensures { result ≡ times a b }
{
    let label = over(a.label, b.label);
    match a.label {
        Label::Inherits => Middle {
            label,
            inherited: figures::plus(a.inherited, b.inherited),
            available: figures::plus(a.available, b.available),
            unavailable: a.unavailable + b.unavailable,
        },
        Label::Says(false) => Middle {
            label,
            available: figures::plus(a.available, figures::plus(b.inherited, b.available)),
            unavailable: a.unavailable + b.unavailable,
            ..a
        },
        Label::Says(true) => Middle {
            label,
            available: figures::plus(a.available, b.available),
            unavailable: a.unavailable + (b.inherited.load.count + b.unavailable),
            ..a
        },
    }
}

// The middle with a run behind it that can no longer grow: the run's figures go where its label, or else that of the middle, says.
#[tactic(auto, using(crate::proofs::Placing::shut_inherits, crate::proofs::Placing::shut_available, crate::proofs::Placing::shut_unavailable))]
pub fn shut_onto(by: Lengths, m: Middle, t: Run) -> Middle
    requires { ShutFits by.p m t }
    ensures { result ≡ times m (shut by.n by.p t) }
{
    let f = run::figures_of(by.p, t);
    let label = over(m.label, verdict(by.n, t));
    match label {
        Label::Inherits => Middle {
            label,
            inherited: figures::plus(m.inherited, f),
            ..m
        },
        Label::Says(false) => Middle {
            label,
            available: figures::plus(m.available, f),
            ..m
        },
        Label::Says(true) => Middle {
            label,
            unavailable: m.unavailable + f.load.count,
            ..m
        },
    }
}

// The same middle, all in maintenance.
#[tactic(auto, unfolding(crate::specs::Middles::quiet_middle, crate::specs::Middles::unit))]
pub fn quiet_middle(m: Middle) -> Middle
    ensures { result ≡ quiet_middle m }
{
    Middle {
        label: m.label,
        ..unit()
    }
}
