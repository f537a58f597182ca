// Percentile delay and range: document 01's lines, and both sides of each limit. A line is the percentile, the range and the verdict
// of each, or the refusal.
use cases::{circuit, lines};
use numbers::bytes;
use std::io;

// Settings whose objectives for percentile and range are the first three words.
fn settings(case: &[u8]) -> [u8; 64] {
    let mut s = circuit::settings(3, 0);
    bytes::put_u32(&mut s, 48, lines::get_u32(case, 1));
    bytes::put_u32(&mut s, 52, lines::get_u32(case, 2));
    bytes::put_u32(&mut s, 56, lines::get_u32(case, 3));
    s
}

// What a list gives.
fn show(rt: &impl Print, s: &[u8], list: &[u32]) -> io::Result<()> {
    match delays::delays(s, list) {
        Ok(f) => {
            let met = u8::from(f.percentile_met);
            let within = u8::from(f.range_met);
            print!(rt; " {} {} {met}{within}", f.percentile, f.range)?;
        }
        Err(r) => print!(rt; " refused {r}")?,
    }
    println!(rt)
}

// Pr, both objectives, how many delays, the delays, and the case's name.
pub fn line(rt: &impl Print, case: &[u8]) -> io::Result<()> {
    let count = lines::get_usize(case, 4);
    if count <= 9 {
        let mut list = [0u32; 9];
        for (k, delay) in (5..).zip(list[..count].iter_mut()) {
            *delay = lines::get_u32(case, k);
        }
        rt.write_all(lines::rest(case, 5 + count))?;
        show(rt, &settings(case), &list[..count])?;
    }
    Ok(())
}
