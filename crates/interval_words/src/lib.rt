// What the C interface does of frames, intervals and delays: each function answers 0, or its refusal as one word; a refusal writes nothing.
#![tactic(auto)]

pub mod delay_list;
pub mod frame_list;
pub mod label_list;
