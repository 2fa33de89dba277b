// What a plan means (specs/), and the answers of the operations on its forest.
#![tactic(auto)]

// What measure answers: trees, entries (all nodes) and levels.
#[derive(Clone, Copy)]
pub struct Measured {
    pub trees: u64,
    pub entries: u64,
    pub levels: u64,
}

// What compare answers: the count of pairs of nodes that agree, the place of the first pair that differs, or the budget.
#[derive(Clone, Copy, Debug, PartialEq, Eq)]
pub enum Compared {
    Same(u32),
    Differ(u32),
    Spent(u32),
}
