// No code: document 01's starred lines as one computed table (proofs/Table.antt).
#![tactic(auto)]
