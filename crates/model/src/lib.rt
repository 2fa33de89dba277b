// The walker on a stack of cells, by rule-level functions (specs/), and why it is the walker of the forest (proofs/).
#![tactic(auto)]
