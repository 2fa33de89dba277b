// No functions: the tree with a number in a row, reached by counts of trees (document 02, Note 12).
#![tactic(auto)]
