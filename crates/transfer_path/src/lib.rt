// How a node's path is carried into another forest, and how it is read off a place's cells (specs/), with their laws (proofs/): definitions and theorems alone.
#![tactic(auto)]
