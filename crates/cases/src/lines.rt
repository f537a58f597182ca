// The lines of a text, the words of a line, and the numbers that words are. Words stand between single spaces, so that a word may be empty; what is past
// the last is empty too.
use std::io;

const SPACE: u8 = b' ';

const END: u8 = b'\n';

// Runs `case` on each line of the input, without its end. Of a text that is longer than 8,192 bytes the rest is not read, and what stands behind the last end is not run.
pub fn each<F: FnMut(&[u8]) -> io::Result<()>>(rt: &impl Input, case: F) -> io::Result<()>
    requires { F.IsAlwaysCallable case }
{
    let mut text = [0u8; 8192];
    let n = input::read_full(&mut rt.reader(), &mut text)?;
    text[..n]
        .split_inclusive(|b| *b == END)
        .filter_map(|line| line.strip_suffix(b"\n"))
        .try_for_each(case)
}

// The `k`-th word.
pub fn word(line: &[u8], k: usize) -> &[u8] {
    line.split(|b| *b == SPACE).nth(k).unwrap_or(&[])
}

// The first letter of the `k`-th word, 0 where it is empty.
pub fn letter(line: &[u8], k: usize) -> u8 {
    word(line, k).first().copied().unwrap_or(0)
}

// The words from the `k`-th on.
pub fn rest(line: &[u8], k: usize) -> &[u8] {
    line.splitn(k.saturating_add(1), |b| *b == SPACE)
        .nth(k)
        .unwrap_or(&[])
}

// The number that the `k`-th word is. It wraps, and a letter that is no digit counts as its distance from `0`.
pub fn get_u64(line: &[u8], k: usize) -> u64 {
    word(line, k).iter().fold(0u64, |n, letter| {
        n.wrapping_mul(10)
            .wrapping_add(u64::from(letter.wrapping_sub(b'0')))
    })
}

// The next three stay: one generic function would need a trait of its own, with an impl for each of the types.
pub fn get_u32(line: &[u8], k: usize) -> u32 {
    (get_u64(line, k) % 4_294_967_296) as u32
}

pub fn get_u8(line: &[u8], k: usize) -> u8 {
    (get_u64(line, k) % 256) as u8
}

pub fn get_usize(line: &[u8], k: usize) -> usize {
    get_u64(line, k) as usize
}
