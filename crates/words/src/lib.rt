// What the C interface answers in words: a refusal as one, and words written over the first of others.
#![tactic(auto)]

pub mod word;
pub mod written;
