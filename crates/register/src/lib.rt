// What each call on the register answers and leaves: definitions in specs/, laws and a day in proofs/. The code is the
// crate answering.
#![tactic(auto)]
