// What walk, compare and reason begin with: the rules of an accepted plan in the rows of work, and what is known of each.
#![tactic(auto)]

ghost use Rattle.std.specs.Prelude.{◌≡◌, ◌*◌, take};
ghost use Rattle.plan.specs.Check.{rules_of};
ghost use Rattle.reach.specs.Order.{Orders};
ghost use Rattle.work_rows.specs.Rows.{work_length, row_length, first_rules, Within};
ghost use Rattle.work_rows.specs.Order.{order_in};
ghost use Rattle.work_load.specs.Prepared.{Arrangeable};
ghost use Rattle.facts_load.specs.Filled.{Filled};

// The table of an accepted plan's rules, in the first rows of the work, made in an order in which each comes after those that it names; the
// order stays behind the rows.
pub fn load(plan: &[u8], work: &mut [u8], n: u16)
    requires { Arrangeable plan.now n work.old }
    ensures { let work' = work.new in
        let rules = rules_of plan.now in
        Filled rules (take (row_length * n) work')
        × (first_rules work' n ≡ rules)
        × Orders rules (order_in work' n)
        × Within 0 (work_length * n) work.old work' }
{
    work_load::arrange(plan, work, n);
    facts_build::build(work, n);
}
