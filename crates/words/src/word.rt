// A refusal as one word: number × 2^32 + place.
ghost use Rattle.std.specs.Prelude.{◌≡◌, ◌^◌, ◌<◌};
ghost use Rattle.words.specs.Word.{word_of};

use numbers::refusal::Refusal;

// The word of a refusal. Not of a whole answer: the bound on the place would be asked of a `Result`, and say more than the two arms that it saves.
#[tactic(auto, using(crate::proofs::Faults::number_most))]
pub fn word(r: Refusal) -> u64
    requires { r.place < 2 ^ 32 }
    ensures { result ≡ word_of r }
{
    u64::from(r.fault) * 4_294_967_296 + r.place
}
