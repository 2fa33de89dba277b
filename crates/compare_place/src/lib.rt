// The tasks that a place's subtree begins with (specs/), and why they say its tokens and fit a stack (proofs/): definitions and theorems alone.
#![tactic(auto)]
