// What plates A, C and U are: definitions in specs/, laws and samples in proofs/. The code is the crate figuring.
#![tactic(auto)]
