// The frames of `model` against Aaronson and Gottesman's tableau: definitions in specs/, theorems in proofs/. No code.
#![tactic(auto)]
