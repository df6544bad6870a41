// What a call of the fit answers and leaves is written in specs/, what follows from it is proved in proofs/: there is no code here.
#![tactic(auto)]
