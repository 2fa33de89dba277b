// Demand 3 (specs/Demand.antt): definitions and theorems alone.
#![tactic(auto)]
