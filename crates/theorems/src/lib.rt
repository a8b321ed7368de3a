// What follows from the rules: theorems in proofs/, listed in docs/THEOREMS.md. No code.
#![tactic(auto)]
