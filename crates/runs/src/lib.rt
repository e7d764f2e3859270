// The door's calls on the kit's model machine: specs/ says what it is that a call ends and keeps its promise there, and proofs/ shows it of each
// exported function. There is no code here.
#![tactic(auto)]
