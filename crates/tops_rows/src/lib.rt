// The trees of each rule in a word of its row of work, and of a rule with a hole the nodes above the hole (document 02, Note 12).
#![tactic(auto)]

ghost use Rattle.std.specs.Prelude.{◌≡◌, ◌+◌, ◌*◌, ◌≤◌, length};
ghost use Rattle.work_rows.specs.Rows.{row_length};
ghost use Rattle.count_passes.specs.Tally.{Ready, NamedRows, Readable};
ghost use Rattle.tops_rows.specs.Tops.{tops_at, few_sum, tops_from, TopsPut, Topped};

use rule::Rule;

// Where a row keeps the trees of its rule.
const TOPS: usize = 30;

// The most that a row tells: so many, or more.
pub const MOST: u16 = 65535;

// The trees of a rule.
pub fn tops_at(work: &[u8], r: u16) -> u16
    requires { row_length * (r + 1) ≤ length work.now }
    ensures { result ≡ tops_at work.now r }
{
    work_rows::field16(work, r, TOPS)
}

// Those of two rules together.
fn both(work: &[u8], a: u16, b: u16) -> u16
    requires { (row_length * (a + 1) ≤ length work.now) × (row_length * (b + 1) ≤ length work.now) }
    ensures { let t = work.now in result ≡ few_sum (tops_at t a) (tops_at t b) }
{
    tops_at(work, a).saturating_add(tops_at(work, b))
}

// Those of a rule, from the rows of the rules that it names.
#[tactic(auto, unfolding(crate::specs::Tops::tops_of))]
fn tops_of(work: &[u8], rule: Rule) -> u16
    requires { NamedRows work.now rule }
    ensures { result ≡ tops_from work.now rule }
{
    match rule {
        Rule::Empty => 0,
        Rule::Pair { first, second } => both(work, first, second),
        Rule::Node { .. } | Rule::Fill { .. } | Rule::Part { .. } => 1,
        Rule::Join { outer, inner } => both(work, outer, inner),
    }
}

// Those of row r's rule, written to the row.
fn tops_row(work: &mut [u8], r: u16)
    requires { Readable work.old r }
    ensures { TopsPut r work.old work.new }
{
    let rule = work_rows::rule_at(work, r);
    let tops = tops_of(work, rule);
    work_rows::put16(work, r, TOPS, tops);
}

// Those of every rule, in their order.
pub fn tops_rows(work: &mut [u8], n: u16)
    requires { Ready work.old n }
    ensures { Topped n work.old work.new }
{
    for i in 0..n {
        let r = work_rows::order_at(work, n, i);
        tops_row(work, r);
    }
}
