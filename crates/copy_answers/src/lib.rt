// What a client learns from the answers to a copy (document 02, Note 6): definitions and theorems alone.
#![tactic(auto)]
