// Words put over the first of the caller's.
ghost use Rattle.std.specs.Prelude.{◌≡◌, ◌≤◌, length};
ghost use Rattle.words.specs.Written.{over};

// All of these words, over the first of `words`; what stands behind them stays.
pub fn put<const N: usize>(all: [u64; N], words: &mut [u64])
    requires { N ≤ length words.old }
    ensures { words.new ≡ over all.entry words.old }
{
    words[..N].copy_from_slice(&all);
}
