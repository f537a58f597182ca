// Runs of equal marks on one track, and what is kept of them: figures of their intervals, and what lies between two runs.
// One struct and one piece of code serve both tracks.
#![tactic(auto)]

pub mod figures;
pub mod middles;
pub mod run;
