// The counts that measure asks for: nodes, entries, trees and levels of every rule, in one pass over the rows of work.
#![tactic(auto)]

ghost use Rattle.std.specs.Prelude.{◌≡◌, ◌+◌, ◌<◌, ◌≤◌, length};
ghost use Rattle.forest.specs.Outcome.{entry};
ghost use Rattle.count_all.specs.Counts.{beside, filling, over, one_tree};
ghost use Rattle.count_all.specs.Kept.{Joins, Makes, Turns, IsNone, TooMany, is_above};
ghost use Rattle.count_all.specs.Rows.{long_length, behind_at, counts_end, counts_at, Readable, OfRule, TwoPut, CountsPut};
ghost use Rattle.count_all.specs.Rows.{Countable, RowCounted, Passable, AllCounted, Counted};

use count_capped::Count;
use rule::Rule;
use work_rows::Row;

// A rule's counts, as long as 64 bits hold its nodes; where they don't, the most nodes and no tops. The tops of a closed rule are its trees,
// those of a rule with a hole the nodes above the hole.
#[derive(Clone, Copy)]
pub struct Counts {
    pub nodes: u64,
    pub entries: u64,
    pub tops: u64,
    pub levels: u64,
}

// What a label counts for among the entries: a divider isn't one (document 02, Note 9).
fn weight(label: u32) -> u64
    ensures { result ≡ entry label }
{
    if label == Counts::DIVIDER {
        return 0;
    }
    Counts::ENTRY
}

impl Counts {
    // What an entry counts for.
    const ENTRY: u64 = 1;

    // The label of a divider.
    const DIVIDER: u32 = 0;

    // The most nodes that 64 bits hold.
    const MOST: u64 = Count::MOST;

    // The counts of nothing.
    fn none() -> Counts
        ensures { IsNone result }
    {
        Counts {
            nodes: 0,
            entries: 0,
            tops: 0,
            levels: 0,
        }
    }

    // What is kept of more nodes than 64 bits hold.
    fn too_many() -> Counts
        ensures { TooMany result }
    {
        Counts {
            nodes: Counts::MOST,
            entries: 0,
            tops: 0,
            levels: 0,
        }
    }

    // Whether there are more: no forest of so many nodes is without trees.
    pub fn above(self) -> bool
        ensures { result ≡ is_above self }
    {
        (self.nodes == Counts::MOST) & (self.tops == 0)
    }

    // Both together, with these levels. Where the nodes fit 64 bits, nothing wraps: no other count is above them.
    fn both(self, other: Counts, levels: u64) -> Counts
        ensures { Joins self other levels result }
    {
        if self.nodes > Counts::MOST - other.nodes {
            return Counts::too_many();
        }
        Counts {
            nodes: self.nodes + other.nodes,
            entries: self.entries.wrapping_add(other.entries),
            tops: self.tops.wrapping_add(other.tops),
            levels,
        }
    }

    // Two forests side by side.
    fn beside(self, other: Counts) -> Counts
        ensures { Makes beside self other result }
    {
        self.both(other, self.levels.max(other.levels))
    }

    // A forest in the hole of another: it begins as deep as the hole lies.
    fn filled(self, inner: Counts) -> Counts
        ensures { Makes filling self inner result }
    {
        let below = self.tops.wrapping_add(inner.levels);
        self.both(inner, self.levels.max(below))
    }

    // A node over a forest, of which it makes one tree; or over a hole, which it is then above.
    fn under(self, label: u32) -> Counts
        ensures { Turns (over label) self result }
    {
        if self.nodes == Counts::MOST {
            return Counts::too_many();
        }
        let entry = weight(label);
        Counts {
            nodes: self.nodes + 1,
            entries: self.entries.wrapping_add(entry),
            tops: 1,
            levels: self.levels.wrapping_add(1),
        }
    }

    // A hole filled by a tree: one tree, where there is any.
    fn tree(self) -> Counts
        ensures { Turns one_tree self result }
    {
        Counts {
            nodes: self.nodes,
            entries: self.entries,
            tops: self.tops.min(1),
            levels: self.levels,
        }
    }
}

// Bytes of a 64-bit number.
const LONG: usize = 8;

// Two numbers, one after another.
fn put_two(s: &mut [u8], at: usize, a: u64, b: u64)
    requires { at + long_length + long_length ≤ length s.old }
    ensures { TwoPut at a b s.old s.new }
{
    words::write64(s, at, a);
    words::write64(s, at + LONG, b);
}

// Where a row keeps its tops and levels: behind the rule.
const TOPS: usize = 10;

// Where the nodes and entries of n rules begin, in bytes a rule: behind the rows, a word a rule and their order.
const NODES: usize = Row::LENGTH + 4;

// Where those of rule r lie.
fn behind(n: u16, r: u16) -> usize
    ensures { result ≡ behind_at n r }
{
    NODES * (n as usize) + 2 * LONG * (r as usize)
}

// The counts of rule r.
fn counts_at(work: &[u8], n: u16, r: u16) -> Counts
    requires { (counts_end n ≤ length work.now) × (r < n) }
    ensures { result ≡ counts_at work.now n r }
{
    let behind = behind(n, r);
    let tops = Row::LENGTH * (r as usize) + TOPS;
    Counts {
        nodes: words::read64(work, behind),
        entries: words::read64(work, behind + LONG),
        tops: words::read64(work, tops),
        levels: words::read64(work, tops + LONG),
    }
}

// The counts of rule r, written.
fn put_counts(work: &mut [u8], n: u16, r: u16, c: Counts)
    requires { (counts_end n ≤ length work.old) × (r < n) }
    ensures { CountsPut n r c work.old work.new }
{
    put_two(work, behind(n, r), c.nodes, c.entries);
    put_two(work, Row::LENGTH * (r as usize) + TOPS, c.tops, c.levels);
}

// The counts of a rule, from those of the rules that it names.
fn counts_of(work: &[u8], n: u16, rule: Rule) -> Counts
    requires { Readable work.now n rule }
    ensures { OfRule work.now n rule result }
{
    match rule {
        Rule::Empty => Counts::none(),
        Rule::Pair { first, second } => {
            counts_at(work, n, first).beside(counts_at(work, n, second))
        }
        Rule::Node { label, under } => counts_at(work, n, under).under(label),
        Rule::Fill { outer, inner } => counts_at(work, n, outer)
            .filled(counts_at(work, n, inner))
            .tree(),
        Rule::Part { label, left, right } => {
            counts_at(work, n, left)
                .beside(counts_at(work, n, right))
                .under(label)
        }
        Rule::Join { outer, inner } => counts_at(work, n, outer).filled(counts_at(work, n, inner)),
    }
}

// The counts of row r's rule, made and written.
fn count_row(work: &mut [u8], n: u16, r: u16)
    requires { Countable work.old n r }
    ensures { RowCounted n r work.old work.new }
{
    let rule = work_rows::rule_at(work, r);
    let counts = counts_of(work, n, rule);
    put_counts(work, n, r, counts);
}

// The counts of every rule, in their order.
fn count_rows(work: &mut [u8], n: u16)
    requires { Passable work.old n }
    ensures { AllCounted n work.old work.new }
{
    for i in 0..n {
        let r = work_rows::order_at(work, n, i);
        count_row(work, n, r);
    }
}

// The counts of rule r of the rules in the rows.
pub fn count(work: &mut [u8], n: u16, r: u16) -> Counts
    requires { Countable work.old n r }
    ensures { Counted n r result work.old work.new }
{
    count_rows(work, n);
    counts_at(work, n, r)
}
