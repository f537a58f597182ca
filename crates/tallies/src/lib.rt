// What a report says of a period, and what a track sees of an interval. The definitions that give them their meaning stand in specs/.
#![tactic(auto)]

ghost use Rattle.std.specs.Prelude.{◌≡◌};

// An interval as one track sees it: its mark (true is high), whether it is in maintenance, and its sums.
#[derive(Clone, Copy)]
pub struct Marked {
    pub mark: bool,
    pub maintenance: bool,
    pub sent: u32,
    pub lost: u32,
    pub sum: u64,
    pub least: u32,
    pub most: u32,
}

// The figures of a set of intervals, maintenance left out. The least delay is 0 where nothing was delivered.
#[derive(Clone, Copy)]
pub struct Totals {
    pub count: u32,
    pub high: u32,
    pub runs: u32,
    pub sent: u64,
    pub lost: u64,
    pub sum: u64,
    pub least: u32,
    pub most: u32,
}

// What the intervals with each label come to. The unavailable ones are counted; of the available and of the undecided ones it has a T: their
// figures, or their number alone.
#[derive(Clone, Copy)]
pub struct ByLabel<T> {
    pub available: T,
    pub unavailable: u32,
    pub undecided: T,
}

impl<T> ByLabel<T> {
    // The same intervals, with what f tells of each T.
    pub fn map<U, F: Fn(T) -> U>(self, f: F) -> ByLabel<U>
        requires { F.IsAlwaysCallable f }
        ensures available { F.post f self.available result.available }
        ensures unavailable { result.unavailable ≡ self.unavailable }
        ensures undecided { F.post f self.undecided result.undecided }
    {
        ByLabel {
            available: f(self.available),
            unavailable: self.unavailable,
            undecided: f(self.undecided),
        }
    }
}

// The report of a period: how many intervals it has, how many of them in maintenance, and of the others what each track says.
#[derive(Clone, Copy)]
pub struct Period {
    pub length: u32,
    pub maintenance: u32,
    pub loss: ByLabel<Totals>,
    pub composite: ByLabel<u32>,
}
