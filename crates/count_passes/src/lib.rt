// What a pass over the rows of work needs and leaves, and the text of an expression: definitions and laws alone.
#![tactic(auto)]
