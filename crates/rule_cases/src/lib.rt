// Closed inner fits, whose results the checker computes from the written rule, are in proofs/: there is no code here.
#![tactic(auto)]
