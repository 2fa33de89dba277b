// Every plan of up to three rules with labels 0, in order (specs/), and that it is all of them, each once (proofs/).
#![tactic(auto)]
