// The edges of `interval`: how many frames, which times, which delays.
use cases::{circuit, lines};
use numbers::bytes;
use std::io;

// Room for one frame more than an interval takes.
const ROOM: usize = 16_400;

// The settings of document 01's lines: DL 4 ms, Jt 2 ms, intervals of 60,000 ms.
fn settings() -> [u8; 64] {
    let mut s = circuit::settings(3, 2);
    bytes::put_u8(&mut s, 6, 7);
    bytes::put_u32(&mut s, 12, 374_999);
    bytes::put_u32(&mut s, 16, 4_000_000);
    bytes::put_u32(&mut s, 20, 2_000_000);
    s
}

// A frame into its 16 bytes.
fn put_frame(frame: &mut [u8], time: u64, delay: u32, state: u8) {
    bytes::put_u64(frame, 0, time);
    bytes::put_u32(frame, 8, delay);
    bytes::put_u8(frame, 12, state);
}

// Puts a frame: its place, time, delay and state.
pub fn add(held: &mut [u8], case: &[u8]) {
    if let Some(frame) = held.chunks_exact_mut(16).nth(lines::get_usize(case, 1)) {
        put_frame(
            frame,
            lines::get_u64(case, 2),
            lines::get_u32(case, 3),
            lines::get_u8(case, 4),
        );
    }
}

// What the frames give as interval `number`, and a point where the bytes before and behind the record are as they were.
fn show(rt: &impl Print, frames: &[u8], number: u64, maintenance: u64) -> io::Result<()> {
    let mut out = [7u8; 50];
    match measure::interval(&settings(), frames, number, maintenance, &mut out, 1) {
        Ok(()) => show_record(rt, &out[1..])?,
        Err(r) => print!(rt; " refused {r}")?,
    }
    if matches!(out, [7, .., 7]) {
        print!(rt; ".")?;
    }
    println!(rt)
}

// The fields of a record, in order.
fn show_record(rt: &impl Print, record: &[u8]) -> io::Result<()> {
    print!(rt; ":")?;
    for at in [0, 4, 8, 12, 16, 20] {
        print!(rt; " {}", bytes::get_u32(record, at))?;
    }
    print!(rt;
        " {} {} {} {}",
        bytes::get_u64(record, 24),
        bytes::get_u32(record, 32),
        bytes::get_u32(record, 36),
        bytes::get_u8(record, 40)
    )
}

// As many of the frames as the first word says.
fn first<'a>(frames: &'a [u8], case: &[u8]) -> &'a [u8] {
    frames
        .get(..16 * (lines::get_usize(case, 1) % 5_000))
        .unwrap_or(&[])
}

// How many of the frames that are held, the interval's number, maintenance, and the case's name.
pub fn interval(rt: &impl Print, held: &[u8], case: &[u8]) -> io::Result<()> {
    rt.write_all(lines::rest(case, 4))?;
    show(
        rt,
        first(held, case),
        lines::get_u64(case, 2),
        lines::get_u64(case, 3),
    )
}

// How many of as many frames as there is room for, a nanosecond apart, each with the largest delay, and the case's name.
pub fn many_frames(rt: &impl Print, case: &[u8]) -> io::Result<()> {
    let mut frames = [0u8; ROOM];
    for (time, frame) in (0..).zip(frames.chunks_exact_mut(16)) {
        put_frame(frame, time, 4_000_000_000, 0);
    }
    rt.write_all(lines::rest(case, 2))?;
    show(rt, first(&frames, case), 0, 0)
}
