// The customer's three demands, as theorems over what the door ships: proofs/ holds them. There is no code here.
#![tactic(auto)]
