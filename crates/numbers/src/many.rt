// A slice of many records of one size.
ghost use Rattle.std.specs.Prelude.{◌≡◌, length};
ghost use Rattle.numbers.specs.Many.{count_of, record_at};

// How many records of `size` bytes are `len` bytes; none where a part of one stands behind the last.
#[tactic(auto, unfolding(crate::specs::Many::count_of))]
pub fn count(len: usize, size: usize) -> Option<usize>
    ensures { result ≡ count_of len size }
{
    if size != 0 && len % size == 0 {
        Some(len / size)
    } else {
        None
    }
}

// The part of `s` that is its `k`-th record of `size` bytes, or an empty part where `s` does not hold it.
#[tactic(auto, using(crate::proofs::Parts::record_within), unfolding(crate::specs::Many::record_at))]
pub fn part(s: &[u8], size: usize, k: usize) -> &[u8]
    ensures { result.now ≡ record_at s.now size k }
{
    if size != 0 && k < s.len() / size {
        let from = k * size;
        &s[from..from + size]
    } else {
        &s[..0]
    }
}
