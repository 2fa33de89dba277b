// The client's copy as rules (document 02, Note 6): definitions and theorems alone.
#![tactic(auto)]
