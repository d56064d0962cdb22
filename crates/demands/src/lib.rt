// The demands on the library, as theorems: proofs/Demands.antt. There is no code here.
#![tactic(auto)]
