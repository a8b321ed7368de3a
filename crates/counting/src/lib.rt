// Lists and counting: definitions in specs/, laws in proofs/. No code.
#![tactic(auto)]
