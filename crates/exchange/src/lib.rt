// What holds of a box that asks and a meter that answers, over what the door ships of both: proofs/ holds it. There is no code here.
#![tactic(auto)]
