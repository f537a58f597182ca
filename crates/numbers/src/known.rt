// Little-endian numbers out of bytes and into bytes that the caller knows to be there: what `bytes` does, with no test of an index. The two
// are no twins: they ask different things. And one function for u32 and u64 would need a trait, as `from_le_bytes` is each type's own.
ghost use Rattle.std.specs.Prelude.{◌≡◌, ◌+◌, ◌≤◌, length};
ghost use Rattle.std.proofs.lemmas.List.Edits.{sets};
ghost use Rattle.numbers.specs.Bytes.{part, number_at, bytes_of, are_zero};

// The `N` bytes from `i` on.
fn get<const N: usize>(s: &[u8], i: usize) -> [u8; N]
    requires { i + N ≤ length s.now }
    ensures { result ≡ part N s.now i }
{
    *s[i..].first_chunk().unwrap()
}

// The number in the four bytes from `i` on.
#[tactic(auto, using(crate::proofs::LittleEndian::from_four))]
pub fn get_u32(s: &[u8], i: usize) -> u32
    requires { i + 4 ≤ length s.now }
    ensures { result ≡ number_at 4 s.now i }
{
    u32::from_le_bytes(get(s, i))
}

// The number in the eight bytes from `i` on.
#[tactic(auto, using(crate::proofs::LittleEndian::from_eight))]
pub fn get_u64(s: &[u8], i: usize) -> u64
    requires { i + 8 ≤ length s.now }
    ensures { result ≡ number_at 8 s.now i }
{
    u64::from_le_bytes(get(s, i))
}

// Whether the `count` bytes from `i` on are 0.
#[tactic(auto, unfolding(crate::specs::Bytes::are_zero))]
pub fn are_zero(s: &[u8], i: usize, count: usize) -> bool
    requires { i + count ≤ length s.now }
    ensures { result ≡ are_zero count s.now i }
{
    let mut all = true;
    for &b in &s[i..i + count] {
        all &= b == 0;
    }
    all
}

// Bytes put from `i` on.
#[tactic(auto, using(crate::proofs::Window::put_whole))]
fn put<const N: usize>(out: &mut [u8], i: usize, all: [u8; N])
    requires { i + N ≤ length out.old }
    ensures { out.new ≡ sets out.old i all.entry }
{
    out[i..i + N].copy_from_slice(&all);
}

// A number put into the four bytes from `i` on.
#[tactic(auto, using(crate::proofs::LittleEndian::to_four))]
pub fn put_u32(out: &mut [u8], i: usize, x: u32)
    requires { i + 4 ≤ length out.old }
    ensures { out.new ≡ sets out.old i (bytes_of 4 x) }
{
    put(out, i, x.to_le_bytes());
}

// A number put into the eight bytes from `i` on.
#[tactic(auto, using(crate::proofs::LittleEndian::to_eight))]
pub fn put_u64(out: &mut [u8], i: usize, x: u64)
    requires { i + 8 ≤ length out.old }
    ensures { out.new ≡ sets out.old i (bytes_of 8 x) }
{
    put(out, i, x.to_le_bytes());
}

// As many zeros as `count` put from `i` on.
#[tactic(auto, using(crate::proofs::Window::put_whole, crate::proofs::Zeros::zeros_replicated))]
pub fn put_zeros(out: &mut [u8], i: usize, count: usize)
    requires { i + count ≤ length out.old }
    ensures { out.new ≡ sets out.old i (bytes_of count 0) }
{
    out[i..i + count].fill(0);
}
