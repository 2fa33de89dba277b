// The nodes before each rule's hole and those after it, in columns of the rows of work (document 02, Note 4).
#![tactic(auto)]

ghost use Rattle.std.specs.Prelude.{◌≡◌, ◌+◌, ◌*◌, ◌≤◌, length};
ghost use Rattle.work_rows.specs.Rows.{row_length};
ghost use Rattle.count_capped.specs.Count.{capped_sum};
ghost use Rattle.count_passes.specs.Tally.{Ready, NamedRows, Readable};
ghost use Rattle.compare_nodes.specs.Columns.{before_at, after_at, before_from, after_from, task_nodes_in};
ghost use Rattle.compare_nodes.specs.Columns.{NodesPut, Noded, Countable};

use count_capped::Count;
use rule::Rule;
use spread_step::Step;

// Where a row keeps the nodes before its rule's hole, and those after it; of a closed rule both are all its nodes.
const BEFORE: usize = 10;

const AFTER: usize = BEFORE + Count::LENGTH;

// A node over a closed rule.
fn over(work: &[u8], r: u16) -> Count
    requires { row_length * (r + 1) ≤ length work.now }
    ensures { result ≡ capped_sum 1 (after_at work.now r) }
{
    Count::of(1).plus(count_capped::count_at(work, r, AFTER))
}

// What a hole is filled with, between what stands before the hole and what stands after it.
fn filled(work: &[u8], outer: u16, inner: u16) -> Count
    requires { (row_length * (outer + 1) ≤ length work.now) × (row_length * (inner + 1) ≤ length work.now) }
    ensures { let t = work.now in
        result ≡ capped_sum (before_at t outer) (capped_sum (after_at t inner) (after_at t outer)) }
{
    let rest = count_capped::both(work, AFTER, inner, outer);
    count_capped::count_at(work, outer, BEFORE).plus(rest)
}

// The nodes before a rule's hole, from the rows of the rules that it names.
#[tactic(auto, unfolding(compare_tokens::specs::Nodes::before_of))]
fn before_of(work: &[u8], rule: Rule) -> Count
    requires { NamedRows work.now rule }
    ensures { result ≡ before_from work.now rule }
{
    match rule {
        Rule::Empty => Count::of(0),
        Rule::Pair { first, second } => count_capped::both(work, AFTER, first, second),
        Rule::Node { under: rest, .. } | Rule::Part { left: rest, .. } => over(work, rest),
        Rule::Fill { outer, inner } => filled(work, outer, inner),
        Rule::Join { outer, inner } => count_capped::both(work, BEFORE, outer, inner),
    }
}

// The nodes after it.
#[tactic(auto, unfolding(compare_tokens::specs::Nodes::after_of))]
fn after_of(work: &[u8], rule: Rule) -> Count
    requires { NamedRows work.now rule }
    ensures { result ≡ after_from work.now rule }
{
    match rule {
        Rule::Empty => Count::of(0),
        Rule::Pair { first, second } => count_capped::both(work, AFTER, first, second),
        Rule::Node { under, .. } => over(work, under),
        Rule::Fill { outer, inner } => filled(work, outer, inner),
        Rule::Part { right, .. } => count_capped::count_at(work, right, AFTER),
        Rule::Join { outer, inner } => count_capped::both(work, AFTER, inner, outer),
    }
}

// Both counts of row r's rule, written to the row.
fn nodes_row(work: &mut [u8], r: u16)
    requires { Readable work.old r }
    ensures { NodesPut r work.old work.new }
{
    let rule = work_rows::rule_at(work, r);
    let before = before_of(work, rule);
    let after = after_of(work, rule);
    count_capped::put_count(work, r, BEFORE, before);
    count_capped::put_count(work, r, AFTER, after);
}

// Both counts of every rule, in their order.
pub fn nodes_rows(work: &mut [u8], n: u16)
    requires { Ready work.old n }
    ensures { Noded n work.old work.new }
{
    for i in 0..n {
        let r = work_rows::order_at(work, n, i);
        nodes_row(work, r);
    }
}

// The nodes that a task opens: those before its rule's hole, or those after it.
pub fn task_nodes(work: &[u8], task: u16) -> Count
    requires { Countable work.now task }
    ensures { result ≡ task_nodes_in work.now task }
{
    if task == Step::NONE {
        return Count::of(0);
    }
    if task == Step::CLOSE {
        return Count::of(0);
    }
    let r = task / Step::PARTS;
    if task % Step::PARTS == Step::BEFORE {
        return count_capped::count_at(work, r, BEFORE);
    }
    count_capped::count_at(work, r, AFTER)
}
