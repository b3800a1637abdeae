// Where a text of any form goes wrong: definitions in specs/, laws in proofs/. No code.
#![tactic(auto)]
