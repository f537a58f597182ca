// No code: the buyer's third demand, as theorems on the bytes that the operations write (proofs/ThirdDemand.antt).
#![tactic(auto)]
