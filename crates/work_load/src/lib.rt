// What every operation that is lent work begins with: a plan's rules in the rows of the work, and behind them an order in which each stands
// after those that it names; for measure and spread with their refusals (document 01, "As check; 8").
#![tactic(auto)]

ghost use Rattle.std.specs.Prelude.{◌≡◌};
ghost use Rattle.plan.specs.Check.{checked, rules_of};
ghost use Rattle.reach.specs.Order.{lower_below};
ghost use Rattle.work_load.specs.Prepared.{Arrangeable, Ordered, Arranged, Judged, Prepared};

use plan::{Checked, Trailer};
use record::RuleRecords;
use refusal::Refusal;
use work_rows::Row;

// An order of an accepted plan's rules, found by a search: it ends behind the rows and a word a rule.
fn search_order(plan: &[u8], work: &mut [u8], n: u16)
    requires { Arrangeable plan.now n work.old }
    ensures { Ordered (rules_of plan.now) n work.old work.new }
{
    let format = Trailer::format(plan);
    let first = Trailer::first(plan, format, n);
    let rules = RuleRecords {
        bytes: plan,
        format,
        first,
        n,
    };
    let rows = Row::LENGTH * (n as usize);
    reach_order::order(&rules, &mut work[rows..]);
}

// An order of an accepted plan's rules; nothing is searched where each names only lower ones.
fn order_rules(plan: &[u8], work: &mut [u8], n: u16, lower: bool)
    requires { Arrangeable plan.now n work.old × (lower ≡ lower_below (rules_of plan.now) n) }
    ensures { Ordered (rules_of plan.now) n work.old work.new }
{
    if lower {
        work_rows::order_by_number(work, n);
    } else {
        search_order(plan, work, n);
    }
}

// An accepted plan's rules in the rows of work, and behind them an order of these.
pub fn arrange(plan: &[u8], work: &mut [u8], n: u16)
    requires { Arrangeable plan.now n work.old }
    ensures { Arranged (rules_of plan.now) n work.old work.new }
{
    let lower = work_rows::load_rules(plan, work, n);
    order_rules(plan, work, n, lower);
}

// n and start of a plan that was judged, whose rules are then in the rows of work, with their order behind them, or why it is turned down.
pub fn load_judged(
    plan: &[u8],
    judged: Result<Checked, Refusal>,
    work: &mut [u8],
) -> Result<Checked, Refusal>
    requires { Judged plan.now judged }
    ensures { Prepared plan.now work.old work.new judged result }
{
    let Checked { n, start } = judged?;
    if !work_rows::enough_work(work, n) {
        return Err(Refusal::Lent);
    }
    arrange(plan, work, n);
    Ok(Checked { n, start })
}

// The same behind the plan's own check.
pub fn load_plan(plan: &[u8], work: &mut [u8]) -> Result<Checked, Refusal>
    ensures { let plan = plan.entry.now in
        Prepared plan work.old work.new (checked plan) result }
{
    let judged = plan::check(plan);
    load_judged(plan, judged, work)
}
