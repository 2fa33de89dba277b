// The client's copy as a plan's bytes (document 02, Note 6): definitions and theorems alone.
#![tactic(auto)]
