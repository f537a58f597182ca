// The frame record, 16 bytes.
#![tactic(auto)]

ghost use Rattle.std.specs.Prelude.{◌≡◌, length};
ghost use Rattle.frames.specs.Frame.{frame_in, frame_of};

use numbers::{known, limits};

#[derive(Clone, Copy)]
pub struct Frame {
    // ingress time, in ns since the start of interval 0
    pub time: u64,
    // in ns, 0 where the frame is lost; the fields are the record's (`frame_in`), so it is no Option
    pub delay: u32,
    pub lost: bool,
}

// The values that stand in 16 bytes.
#[tactic(auto, unfolding(crate::specs::Frame::frame_in))]
fn frame_in(s: &[u8]) -> Frame
    requires { length s.now ≡ 16 }
    ensures { result ≡ frame_in s.now }
{
    Frame {
        time: known::get_u64(s, 0),
        delay: known::get_u32(s, 8),
        lost: s[12] == 1,
    }
}

// The frame in `s`, if it is 16 bytes and meets every rule. The state and the spare bytes are one number, 0 or 1.
#[tactic(auto, using(numbers::proofs::Words::flag_number), unfolding(crate::specs::Frame::frame_of, crate::specs::Frame::frame_rules, numbers::specs::Limits::largest_delay))]
pub fn read(s: &[u8]) -> Option<Frame>
    ensures { result ≡ frame_of s.now }
{
    if s.len() != 16 {
        return None;
    }
    let v = frame_in(s);
    if (v.delay <= limits::LARGEST_DELAY)
        & (known::get_u32(s, 12) <= 1)
        & (!v.lost | (v.delay == 0))
    {
        Some(v)
    } else {
        None
    }
}
