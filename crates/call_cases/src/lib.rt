// Closed calls, whose answers and results the checker computes from the definition of a call, are in proofs/: there is no code here.
#![tactic(auto)]
