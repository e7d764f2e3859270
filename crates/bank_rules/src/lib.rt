// The rules of a bank and of the calls on it, with their laws: specs/ and proofs/ hold them. There is no code here.
#![tactic(auto)]
