// What the programs share that run document 01's edges: each case is a line of the program's file `stdin`, so that one more case is no code and no proof.
#![tactic(auto)]

pub mod circuit;
pub mod lines;
pub mod printing;
