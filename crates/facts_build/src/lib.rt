// What is known of each rule, made from the rows of the rules that it names and written into its row.
#![tactic(auto)]

ghost use Rattle.std.specs.Prelude.{◌≡◌};
ghost use Rattle.work_rows.specs.Rows.{first_rules};
ghost use Rattle.facts.specs.Facts.{Built, In};
ghost use Rattle.rule.specs.declared.Rule.{Rule};
ghost use Rattle.facts_build.specs.RuleFacts.{put_rule_facts, own_facts, known_facts, stepping_facts, BothSteps, rule_facts_of};
ghost use Rattle.facts_build.specs.Buildable.{Buildable};
ghost use Rattle.facts.specs.Build.{Ready};

use facts::Link;
use rule::Rule;
use side::Side;

// What is known of a rule.
#[derive(Clone, Copy)]
struct RuleFacts {
    representative: u16,
    empty: bool,
    left: Link,
    right: Link,
}

impl RuleFacts {
    // Of a rule r that has no step.
    fn own(r: u16, empty: bool) -> RuleFacts
        ensures { result ≡ own_facts r empty }
    {
        RuleFacts {
            representative: r,
            empty,
            left: Link::own(r),
            right: Link::own(r),
        }
    }

    // What the row of rule r says.
    fn read(work: &[u8], r: u16) -> RuleFacts
        requires { In work.now r }
        ensures { result ≡ known_facts work.now r }
    {
        RuleFacts {
            representative: facts::representative_at(work, r),
            empty: facts::is_empty_at(work, r),
            left: Link::read(work, Side::Left, r),
            right: Link::read(work, Side::Right, r),
        }
    }

    // Of a rule r that steps to one rule on the left and to one on the right.
    fn stepping(work: &[u8], r: u16, left: u16, right: u16) -> RuleFacts
        requires { BothSteps work.now left right }
        ensures { result ≡ stepping_facts work.now r left right }
    {
        RuleFacts {
            representative: r,
            empty: false,
            left: Link::from(work, Side::Left, left),
            right: Link::from(work, Side::Right, right),
        }
    }

    // Of a pair r of rules: with one side empty, what is known of the other.
    fn of_pair(work: &[u8], r: u16, first: u16, second: u16) -> RuleFacts
        requires { Ready (Rule.Pair first second) work.now }
        ensures { result ≡ rule_facts_of work.now r (Rule.Pair first second) }
    {
        if facts::is_empty_at(work, first) {
            return RuleFacts::read(work, second);
        }
        if facts::is_empty_at(work, second) {
            return RuleFacts::read(work, first);
        }
        let left = facts::representative_at(work, first);
        let right = facts::representative_at(work, second);
        RuleFacts::stepping(work, r, left, right)
    }

    // All that is known of rule r, from the rows of the rules that it names.
    fn of(work: &[u8], r: u16, rule: Rule) -> RuleFacts
        requires { Ready rule work.now }
        ensures { result ≡ rule_facts_of work.now r rule }
    {
        match rule {
            Rule::Pair { first, second } => RuleFacts::of_pair(work, r, first, second),
            Rule::Join { outer, inner } => RuleFacts::stepping(work, r, outer, inner),
            Rule::Empty => RuleFacts::own(r, true),
            Rule::Node { .. } | Rule::Fill { .. } | Rule::Part { .. } => RuleFacts::own(r, false),
        }
    }

    // These facts into row r.
    fn write(self, work: &mut [u8], r: u16)
        requires { In work.old r }
        ensures { work.new ≡ put_rule_facts work.old r self }
    {
        work_rows::put16(work, r, Link::REPRESENTATIVE, self.representative);
        work_rows::put16(work, r, Link::EMPTINESS, u16::from(self.empty));
        self.left.write(work, Side::Left, r);
        self.right.write(work, Side::Right, r);
    }
}

// What is known of each of n rules, into their rows, in the order that stands behind the rows: each rule after those that it names.
pub fn build(work: &mut [u8], n: u16)
    requires { Buildable n work.old }
    ensures { Built (first_rules work.old n) n work.old work.new }
{
    for i in 0..n {
        let r = work_rows::order_at(work, n, i);
        let rule = work_rows::rule_at(work, r);
        let facts = RuleFacts::of(work, r, rule);
        facts.write(work, r);
    }
}
