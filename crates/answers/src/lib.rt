// No code: what each operation answers, in document 01's numbers, places and order (specs/Operations.antt), as theorems on the contracts (proofs/).
#![tactic(auto)]
