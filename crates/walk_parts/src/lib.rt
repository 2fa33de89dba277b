// A log of letters walked in parts (specs/Parted.antt): definitions and theorems alone.
#![tactic(auto)]
