// The ground of all records: the limits and the numbered refusals of document 01, little-endian numbers in bytes, records in a row, and room for one.
#![tactic(auto)]

pub mod bytes;
pub mod known;
pub mod limits;
pub mod many;
pub mod refusal;
pub mod room;
