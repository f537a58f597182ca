// Labels of intervals: the marks of an interval under settings, and the label bytes of a stretch.
#![tactic(auto)]

pub mod marks;
pub mod stretch;
