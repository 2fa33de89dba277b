// What a client's copy weighs, and what was taken out of it (document 02, Note 8): theorems only, in proofs/.
#![tactic(auto)]
