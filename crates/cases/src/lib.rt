// The thirteen cases that document 01 wants proved stand in specs/Thirteen and are proved in proofs/Table: there is no code here.
#![tactic(auto)]
