// The vocabulary of lists and of cases in an order, with its laws: specs/ and proofs/ hold them. There is no code here.
#![tactic(auto)]
