// Compare (document 02, Note 4): whether two places of a plan carry the same meals.
#![tactic(auto)]

ghost use Rattle.std.specs.Prelude.{◌≡◌, ◌*◌};
ghost use Rattle.plan.specs.declared.Checked.{Checked};
ghost use Rattle.plan.specs.Check.{checked, rules_of};
ghost use Rattle.forest.specs.Walk.{place_judged};
ghost use Rattle.forest.specs.Compare.{within, node_judged, enough_compared, compared_at, compare, compared_work};
ghost use Rattle.work_rows.specs.Rows.{work_length, Within};
ghost use Rattle.place_open.specs.Open.{Openable};
ghost use Rattle.compare.specs.Places.{Lendable, NodeOpens, BothOpen, Standings, begun_differ};

use forest::Compared;
use letter_arrival::Standing;
use place_open::Opened;
use plan::Checked;
use refusal::Refusal;
use work_rows::Row;

// Whether n rules have enough of work and of both cursors.
fn enough_compared(work: &[u8], first: &[u8], second: &[u8], n: u16) -> bool
    ensures { result ≡ enough_compared work.now first.now second.now n }
{
    work_rows::enough_work(work, n)
        & (walk_lent::enough_cursor(first, n) & walk_lent::enough_cursor(second, n))
}

// The node that a cursor stands at, on the rows of an accepted plan's rules: a place above the forest is turned down too.
fn open_node(rows: &[u8], cursor: &[u8], accepted: Checked) -> Result<Opened, Refusal>
    requires { Openable accepted.start accepted.n rows.now cursor.now }
    ensures { NodeOpens rows.now accepted.n accepted.start cursor.now result }
{
    let opened = place_open::open(rows, cursor, accepted)?;
    if opened.at.used == 0 {
        return Err(Refusal::Place);
    }
    Ok(opened)
}

// The nodes that two cursors stand at, the first cursor before the second.
fn open_both(
    rows: &[u8],
    first: &[u8],
    second: &[u8],
    accepted: Checked,
) -> Result<(Standing, Standing), Refusal>
    requires { Openable accepted.start accepted.n rows.now first.now × Openable accepted.start accepted.n rows.now second.now }
    ensures { BothOpen rows.now accepted.n accepted.start first.now second.now result }
{
    let one = open_node(rows, first, accepted)?;
    let two = open_node(rows, second, accepted)?;
    Ok((one.at, two.at))
}

// Where the stacks of the two subtrees begin, in bytes a rule: behind the order of the rules, with room under each.
const FIRST: usize = 40;

const SECOND: usize = 54;

// The subtrees at two nodes compared, on the filled rows of work.
fn compare_subtrees(
    work: &mut [u8],
    first: &[u8],
    second: &[u8],
    n: u16,
    one: Standing,
    two: Standing,
    budget: u32,
) -> Compared
    requires { Standings work.old n first.now second.now one two }
    ensures { let work' = work.exit.now in
        let work = work.entry.now in
        let first = first.entry.now in
        let second = second.entry.now in
        (result ≡ within budget (begun_differ work n first second one two)) × Within 0 (work_length * n) work work' }
{
    let a = compare_begin::begin(work, first, n, FIRST * (n as usize), one.used, one.rule);
    let b = compare_begin::begin(work, second, n, SECOND * (n as usize), two.used, two.rule);
    compare_nodes::nodes_rows(work, n);
    spread_stack::task_rows(work, n);
    compare_run::run(work, n, a.from, a.tasks, b.from, b.tasks, budget)
}

// Two places of an accepted plan compared, past 8.
fn compare_places(
    plan: &[u8],
    work: &mut [u8],
    first: &[u8],
    second: &[u8],
    budget: u32,
    accepted: Checked,
) -> Result<Compared, Refusal>
    requires { Lendable plan.now accepted.n accepted.start work.old first.now second.now }
    ensures { let work' = work.exit.now in
        let work = work.entry.now in
        let rules = rules_of plan.now in
        let one = node_judged (place_judged rules accepted.n accepted.start first.now) in
        let two = node_judged (place_judged rules accepted.n accepted.start second.now) in
        (result ≡ compared_at rules budget one two) × Within 0 (work_length * accepted.n) work work' }
{
    facts_load::load(plan, work, accepted.n);
    let rows = &work[..Row::LENGTH * (accepted.n as usize)];
    let (one, two) = open_both(rows, first, second, accepted)?;
    Ok(compare_subtrees(work, first, second, accepted.n, one, two, budget))
}

// Compare on an accepted plan: what is lent is tested, the work is filled and cleared.
fn compare_rules(
    plan: &[u8],
    work: &mut [u8],
    first: &[u8],
    second: &[u8],
    budget: u32,
    accepted: Checked,
) -> Result<Compared, Refusal>
    requires { checked plan.now ≡ Ok accepted }
    ensures { let work' = work.exit.now in
        let plan = plan.entry.now in
        let work = work.entry.now in
        let first = first.entry.now in
        let second = second.entry.now in
        (result ≡ compare plan work first second budget) × (work' ≡ compared_work plan work first second) }
{
    if !enough_compared(work, first, second, accepted.n) {
        return Err(Refusal::Lent);
    }
    let answer = compare_places(plan, work, first, second, budget, accepted);
    work_rows::clear_work(work, accepted.n);
    answer
}

// Compare the subtrees at two places of a plan: same, differ or spent, and a count; or why it is turned down. The cursors are only read.
pub fn compare(
    plan: &[u8],
    work: &mut [u8],
    first: &[u8],
    second: &[u8],
    budget: u32,
) -> Result<Compared, Refusal>
    ensures { let work' = work.exit.now in
        let plan = plan.entry.now in
        let work = work.entry.now in
        let first = first.entry.now in
        let second = second.entry.now in
        (result ≡ compare plan work first second budget) × (work' ≡ compared_work plan work first second) }
{
    let accepted = plan::check(plan)?;
    compare_rules(plan, work, first, second, budget, accepted)
}
