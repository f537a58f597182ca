// A whole file of intervals as one period: its report and verdicts, or the refusal, of what was fed of it.
#![tactic(auto)]

ghost use Rattle.std.specs.Prelude.{◌≡◌, []};
ghost use Rattle.settings.specs.Settings.{settings_of};
ghost use Rattle.summaries.specs.Made.{made_of};
ghost use Rattle.feeding.specs.Feeding.{Known, Growing, finished_by};
ghost use Rattle.files.specs.Files.{stretch, alone_of, answer_of, Judging, concluded_by};

use feeding::State;
use numbers::refusal::{Fault, Refusal};
use periods::Stretch;
use settings::{LabelSettings, Settings};
use summaries::Summary;
use tallies::Period;
use tracks::Track;
use verdicts::Verdicts;

#[derive(Clone, Copy)]
pub struct Answer {
    pub period: Period,
    pub verdicts: Verdicts,
}

// No intervals, at a number.
#[tactic(auto, unfolding(summaries::specs::Made::made_of, tracks::specs::Tracks::summary, tracks::specs::Tracks::push_all))]
fn nothing_at(l: LabelSettings, at: u32) -> Stretch
    ensures { result ≡ stretch (made_of l at []) }
{
    let empty = Summary {
        first: at,
        after: at,
        label: l,
        loss: Track::Nothing,
        composite: Track::Nothing,
    };
    Stretch { held: empty }
}

// The report of a stretch with nothing before and nothing behind it.
#[tactic(auto, unfolding(crate::specs::Files::alone_of))]
fn alone(v: Summary) -> Period
    requires { Known v }
    ensures { result ≡ alone_of v }
{
    let l = v.label;
    let before = nothing_at(l, v.first);
    let behind = nothing_at(l, v.after);
    periods::period(before, Stretch { held: v }, behind)
}

// The report of a stretch alone, and its verdicts.
fn judge(s: Settings, v: Summary) -> Answer
    requires { Judging s v }
    ensures { result ≡ answer_of s v }
{
    let period = alone(v);
    Answer {
        period,
        verdicts: verdicts::verdicts_of(s, period),
    }
}

// What all that was fed of the file says, by the settings.
#[tactic(auto, using(crate::proofs::Between::good_held))]
pub fn conclude(settings: &[u8], state: State) -> Result<Answer, Refusal>
    requires { Growing state.held }
    ensures { result ≡ concluded_by (settings_of settings.now) (finished_by state.held state.left) }
{
    // `let .. else`: so document 01 has each record read taken apart.
    let Some(s) = settings::read(settings) else {
        return Err(Fault::Settings.at(0));
    };
    let v = feeding::finish(state)?;
    Ok(judge(s, v))
}
