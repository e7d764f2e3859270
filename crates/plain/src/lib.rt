// What documents 01 and 02 say of a frame, once more in plain numbers, and that the definitions say the same: specs/ and proofs/ hold it. There is
// no code here.
#![tactic(auto)]
