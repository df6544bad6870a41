// What the program prints for each job is written in specs/, what follows from it is proved in proofs/: there is no code here.
#![tactic(auto)]
