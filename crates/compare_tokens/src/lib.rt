// Subtrees compared as lists of tokens (specs/), and why that compares their nodes (proofs/): definitions and theorems alone.
#![tactic(auto)]
