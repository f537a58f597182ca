// Circuits of some intervals, a letter each: H is sent 10, lost 10, and L is sent 10, lost 0; E is sent 10, lost 5, and M sent 10, lost 6; each frame delivered in 1,000 ns. N sent
// nothing. A small letter is in maintenance.
use crate::lines;
use numbers::bytes;

// Settings with the interval length 60,000 ms, C, U and Pr one half and the loss weight alone.
pub fn settings(n: u8, p: u8) -> [u8; 64] {
    let mut s = [0u8; 64];
    bytes::put_u32(&mut s, 0, 60_000);
    bytes::put_u8(&mut s, 4, n);
    bytes::put_u8(&mut s, 5, p);
    bytes::put_u8(&mut s, 6, 1);
    bytes::put_u32(&mut s, 8, 500_000);
    bytes::put_u32(&mut s, 12, 500_000);
    bytes::put_u32(&mut s, 48, 500_000);
    s
}

// Settings whose n and p are the `k`-th word and the next.
pub fn settings_at(line: &[u8], k: usize) -> [u8; 64] {
    let words = lines::rest(line, k);
    settings(lines::get_u8(words, 0), lines::get_u8(words, 1))
}

// 10 frames, some of them lost, and the sum of the delays of the others.
fn put_frames(record: &mut [u8], lost: u32, sum: u32) {
    bytes::put_u32(record, 4, 10);
    bytes::put_u32(record, 8, lost);
    if lost < 10 {
        bytes::put_u32(record, 24, sum);
        bytes::put_u32(record, 32, 1_000);
        bytes::put_u32(record, 36, 1_000);
    }
}

// What the letter says, into zeros. An enum of the letters would be a second list of them beside this one.
fn put_letter(record: &mut [u8], letter: u8) {
    match letter.to_ascii_uppercase() {
        b'H' => put_frames(record, 10, 0),
        b'L' => put_frames(record, 0, 10_000),
        b'E' => put_frames(record, 5, 5_000),
        b'M' => put_frames(record, 6, 4_000),
        _ => (),
    }
    if b'a' <= letter {
        bytes::put_u32(record, 40, 1);
    }
}

// The records of the letters, from 0 on, as far as there is room, and 72 at most; zeros behind them.
pub fn records<const N: usize>(letters: &[u8]) -> [u8; N] {
    let mut records = [0u8; N];
    for ((number, record), letter) in (0..72).zip(records.chunks_exact_mut(48)).zip(letters) {
        bytes::put_u32(record, 0, number);
        put_letter(record, *letter);
    }
    records
}
