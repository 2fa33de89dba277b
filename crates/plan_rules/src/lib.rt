// Sound rules written as a plan are accepted, and read back as they were: theorems alone.
#![tactic(auto)]
