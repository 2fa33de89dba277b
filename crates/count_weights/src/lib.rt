// A weight of labels summed over all nodes of a rule, without spreading it: one pass over the rows of work, which hold the weight of each
// rule's own label (document 02, Note 8).
#![tactic(auto)]

ghost use Rattle.std.specs.Prelude.{◌≡◌, ◌<◌};
ghost use Rattle.work_rows.specs.Rows.{put_field};
ghost use Rattle.count_capped.specs.Count.{capped_sum, count_length};
ghost use Rattle.count_passes.specs.Tally.{Ready, NamedRows, Readable};
ghost use Rattle.count_weights.specs.Weights.{at_sum, sum_at, sum_from, named_sum, Summed, Totalled};

use count_capped::Count;
use rule::Rule;

// Where a row keeps its rule's sum, and the weight of its rule's own label, a word.
const AT_SUM: usize = 10;

pub const AT_WEIGHT: usize = 28;

// The sums of the rules that a rule names, together.
#[tactic(auto, unfolding(crate::specs::Weights::named_sum))]
fn named_sum(work: &[u8], rule: Rule) -> Count
    requires { NamedRows work.now rule }
    ensures { result ≡ named_sum capped_sum (sum_at work.now) rule }
{
    match rule {
        Rule::Empty => Count::of(0),
        Rule::Pair { first, second } => count_capped::both(work, AT_SUM, first, second),
        Rule::Node { under, .. } => count_capped::count_at(work, under, AT_SUM),
        Rule::Fill { outer, inner } => count_capped::both(work, AT_SUM, outer, inner),
        Rule::Part { left, right, .. } => count_capped::both(work, AT_SUM, left, right),
        Rule::Join { outer, inner } => count_capped::both(work, AT_SUM, outer, inner),
    }
}

// The sum of row r's rule, made and written to the row.
fn sum_row(work: &mut [u8], r: u16)
    requires { Readable work.old r }
    ensures { let s = work.old in
        work.new ≡ put_field count_length s r at_sum (sum_from s r) }
{
    let rule = work_rows::rule_at(work, r);
    let own = work_rows::field16(work, r, AT_WEIGHT);
    let named = named_sum(work, rule);
    count_capped::put_count(work, r, AT_SUM, Count::of(own as u64).plus(named));
}

// The sums of all rules, in their order.
fn sum_rows(work: &mut [u8], n: u16)
    requires { Ready work.old n }
    ensures { Summed n work.old work.new }
{
    for i in 0..n {
        let r = work_rows::order_at(work, n, i);
        sum_row(work, r);
    }
}

// The sum of rule r of the rules in the rows.
pub fn total(work: &mut [u8], n: u16, r: u16) -> Count
    requires { Ready work.old n × (r < n) }
    ensures { Totalled n r result work.old work.new }
{
    sum_rows(work, n);
    count_capped::count_at(work, r, AT_SUM)
}
