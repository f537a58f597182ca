// The percentile of a lent list of delays: the least of them that enough of them are at or below. The list is read, and neither sorted, copied nor changed.
#![tactic(auto)]

pub mod few;
pub mod table;
