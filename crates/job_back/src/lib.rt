// That a job which is written is read as it was is proved in proofs/: there is no code here.
#![tactic(auto)]
