// Little-endian numbers out of bytes and into bytes. A byte past the end reads as 0 and is not written, so that each function takes any
// slice and any place.
ghost use Rattle.std.specs.Prelude.{◌≡◌, get_or, set};
ghost use Rattle.std.proofs.lemmas.List.Edits.{sets};
ghost use Rattle.numbers.specs.Bytes.{part, number_at, bytes_of};

// The byte at `i`.
pub fn get_u8(s: &[u8], i: usize) -> u8
    ensures { result ≡ get_or s.now i 0 }
{
    if i < s.len() { s[i] } else { 0 }
}

// The `N` bytes from `i` on.
#[tactic(auto, unfolding(crate::specs::Bytes::part))]
fn get<const N: usize>(s: &[u8], i: usize) -> [u8; N]
    ensures { result ≡ part N s.now i }
{
    let mut all = [0; N];
    for (k, x) in all.iter_mut().enumerate() {
        *x = get_u8(s, i.saturating_add(k));
    }
    all
}

// The number in the four bytes from `i` on.
#[tactic(auto, using(crate::proofs::LittleEndian::from_four))]
pub fn get_u32(s: &[u8], i: usize) -> u32
    ensures { result ≡ number_at 4 s.now i }
{
    u32::from_le_bytes(get(s, i))
}

// The number in the eight bytes from `i` on.
#[tactic(auto, using(crate::proofs::LittleEndian::from_eight))]
pub fn get_u64(s: &[u8], i: usize) -> u64
    ensures { result ≡ number_at 8 s.now i }
{
    u64::from_le_bytes(get(s, i))
}

// A byte put at `i`.
pub fn put_u8(out: &mut [u8], i: usize, x: u8)
    ensures { out.new ≡ set out.old i x }
{
    if i < out.len() {
        out[i] = x;
    }
}

// Bytes put from `i` on.
fn put<const N: usize>(out: &mut [u8], i: usize, all: [u8; N])
    ensures { out.new ≡ sets out.old i all.entry }
{
    for (k, &x) in all.iter().enumerate() {
        put_u8(out, i.saturating_add(k), x);
    }
}

// A number put into the four bytes from `i` on.
#[tactic(auto, using(crate::proofs::LittleEndian::to_four))]
pub fn put_u32(out: &mut [u8], i: usize, x: u32)
    ensures { out.new ≡ sets out.old i (bytes_of 4 x) }
{
    put(out, i, x.to_le_bytes());
}

// A number put into the eight bytes from `i` on.
#[tactic(auto, using(crate::proofs::LittleEndian::to_eight))]
pub fn put_u64(out: &mut [u8], i: usize, x: u64)
    ensures { out.new ≡ sets out.old i (bytes_of 8 x) }
{
    put(out, i, x.to_le_bytes());
}
