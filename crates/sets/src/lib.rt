// The verdicts of a set of ordered pairs, each of which is three adjoining summaries.
#![tactic(auto)]

ghost use Rattle.std.specs.Prelude.{◌≡◌, []};
ghost use Rattle.sets.specs.Sets.{pairs_from, set_from, judged_of, Gone};

use numbers::limits;
use numbers::refusal::{Fault, Refusal};
use settings::Settings;
use verdicts::Verdicts;

// The verdicts of the first `n` pairs of `s` (the number is the caller's), or the first pair's refusal.
#[tactic(auto, using(crate::proofs::Going::going_start, crate::proofs::Going::going_next), unfolding(numbers::specs::Limits::pairs))]
fn of_pairs(v: Settings, s: &[u8], n: usize) -> Result<Verdicts, Refusal>
    requires { Gone v n }
    ensures { result ≡ set_from v [] (pairs_from n v.label s.now 0) }
{
    let mut all = verdicts::nothing();
    for k in 0..n {
        let p = reports::three_at(Some(v.label), s, 3 * k)?;
        let one = verdicts::verdicts_of(v, p);
        all = verdicts::both(all, one);
    }
    Ok(all)
}

// The verdicts of the set, for each objective.
#[tactic(auto, unfolding(crate::specs::Sets::judged_of, crate::specs::Sets::unless, numbers::specs::Limits::pairs))]
pub fn verdicts(settings: &[u8], pairs: u64, summaries: &[u8]) -> Result<Verdicts, Refusal>
    ensures { result ≡ judged_of settings.now pairs summaries.now }
{
    // `let .. else`: so document 01 has each record read taken apart.
    let Some(v) = settings::read(settings) else {
        return Err(Fault::Settings.at(0));
    };
    if pairs < 1 {
        return Err(Fault::Pairs.at(0));
    }
    if limits::PAIRS < pairs {
        return Err(Fault::Pairs.at(0));
    }
    let n = pairs as usize;
    if summaries.len() != n * 3072 {
        return Err(Fault::Length.at(0));
    }
    of_pairs(v, summaries, n)
}
