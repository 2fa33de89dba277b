// The client's copy (document 02, Note 6): what of a forest a client sees, and three variants of each rule that stand for it.
#![tactic(auto)]

use rule::Rule;

// The right-hand sides that the copy has for a rule: of its children around the hole, of the whole rule, and of the rule with its hole shut.
#[derive(Clone, Copy)]
pub struct Variants {
    pub inner: Rule,
    pub whole: Rule,
    pub shut: Rule,
}
