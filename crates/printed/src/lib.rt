// What the program prints in each case is proved in proofs/: there is no code here.
#![tactic(auto)]
