// What the plate program prints of an input: definitions in specs/, laws and samples in proofs/. The code is the crate
// printing.
#![tactic(auto)]
