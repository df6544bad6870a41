// What the functions at the edge ask and ensure is stated once more in proofs/, so that a weaker contract is refused: there is no code here.
#![tactic(auto)]
