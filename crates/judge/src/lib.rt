// The test of a plan's rules (document 01, "Check", refusals 4 to 7, and document 02, Note 1, refusal 12), which check and seal share.
#![tactic(auto)]

ghost use Rattle.std.specs.Prelude.{◌≡◌, ◌*◌, ◌≤◌, ◌<◌, ◌&&◌, ltb, cond};
ghost use Rattle.rule.specs.Rule.{kind_empty, kind_pair, kind_node, closed, holed, tree, rules_in};
ghost use Rattle.record.specs.Records.{record_in, kind_at};
ghost use Rattle.record.specs.RuleRecords.{records_lent};
ghost use Rattle.reach.specs.Reaches.{lowest_cycle};
ghost use Rattle.refusal.specs.declared.Refusal.{Refusal};
ghost use Rattle.judge.specs.Judge.{cycle_judged, start_judged, judged};
ghost use Rattle.judge.specs.Tested.{most_searched, verdict, tested, Tells, Searchable};

use record::{Record, RuleRecords};
use refusal::Refusal;
use rule::Rule;

// The kind of rule x; empty where there is no such rule.
fn kind_at(rules: &RuleRecords, x: u16) -> u16
    ensures { result ≡ kind_at (records_lent rules.now) x }
{
    if x < rules.n {
        rules.kind(x)
    } else {
        Rule::EMPTY
    }
}

// The sorts of rule x, by its kind: closed, holed, and a tree.
#[tactic(auto, unfolding(rule::specs::Rule::closed))]
fn closed_at(rules: &RuleRecords, x: u16) -> bool
    ensures { result ≡ closed (kind_at (records_lent rules.now) x) }
{
    let kind = kind_at(rules, x);
    (kind == Rule::EMPTY) | (kind == Rule::PAIR) | (kind == Rule::NODE) | (kind == Rule::FILL)
}

#[tactic(auto, unfolding(rule::specs::Rule::holed))]
fn holed_at(rules: &RuleRecords, x: u16) -> bool
    ensures { result ≡ holed (kind_at (records_lent rules.now) x) }
{
    let kind = kind_at(rules, x);
    (kind == Rule::PART) | (kind == Rule::JOIN)
}

fn tree_at(rules: &RuleRecords, x: u16) -> bool
    ensures { result ≡ tree (kind_at (records_lent rules.now) x) }
{
    let kind = kind_at(rules, x);
    (kind == Rule::NODE) | (kind == Rule::FILL)
}

// Why a rule that fails one of the three tests is refused: the first of 4, 5 and 6 whose test failed, 6 where the other two held.
fn fault(number: usize, formed: bool, ranged: bool) -> Refusal
    ensures { result ≡ cond formed (cond ranged (Refusal.WrongSort number) (Refusal.NoRule number)) (Refusal.Malformed number) }
{
    if !formed {
        return Refusal::Malformed(number);
    }
    if !ranged {
        return Refusal::NoRule(number);
    }
    Refusal::WrongSort(number)
}

// The first of 4, 5 and 6 whose test failed for rule i; else whether the rule names only lower ones. A rule that passes meets one test.
#[tactic(auto, unfolding(crate::specs::Tested::verdict))]
fn verdict(i: u16, formed: bool, ranged: bool, sorted: bool, lower: bool) -> Result<bool, Refusal>
    ensures { result ≡ verdict i formed ranged sorted lower }
{
    if formed & ranged & sorted {
        return Ok(lower);
    }
    Err(fault(i as usize, formed, ranged))
}

// The same of a rule that names two.
fn verdict_of_two(
    i: u16,
    n: u16,
    formed: bool,
    one: u16,
    two: u16,
    sorted: bool,
) -> Result<bool, Refusal>
    ensures { result ≡ verdict i formed (ltb one n && ltb two n) sorted (ltb one i && ltb two i) }
{
    verdict(
        i,
        formed,
        rule::both_below(one, two, n),
        sorted,
        rule::both_below(one, two, i),
    )
}

// The test of rule i by its record's words, which tells whether it names only lower rules: kinds 0 to 2 here, all others in test_filled.
fn test_rule(rules: &RuleRecords, i: u16) -> Result<bool, Refusal>
    requires { i < rules.now.n }
    ensures { result ≡ tested rules.now.format (records_lent rules.now) i }
{
    let n = rules.n;
    let w = rules.record(i);
    let kind = w.kind;
    let one = w.one;
    let two = w.two;
    let three = w.three;
    let high = w.high;
    let unused = three == Record::UNUSED;
    let low = high == Record::UNUSED;
    if kind == Rule::PAIR {
        return verdict_of_two(
            i,
            n,
            unused & low,
            one,
            two,
            closed_at(rules, one) & closed_at(rules, two),
        );
    }
    if kind == Rule::NODE {
        return verdict(
            i,
            Rule::label_fits(w, rules.format) & unused,
            two < n,
            closed_at(rules, two),
            two < i,
        );
    }
    if kind == Rule::EMPTY {
        return verdict(
            i,
            (one == Record::UNUSED) & (two == Record::UNUSED) & unused & low,
            true,
            true,
            true,
        );
    }
    test_filled(rules, i, w)
}

// The same from the rule's record, of every kind but 0 to 2: those that have to do with a hole, and kinds above 5.
fn test_filled(rules: &RuleRecords, i: u16, w: Record) -> Result<bool, Refusal>
    requires { (w ≡ record_in (records_lent rules.now) i)
        × (w.kind ≡ kind_empty → ⊥)
        × (w.kind ≡ kind_pair → ⊥)
        × (w.kind ≡ kind_node → ⊥) }
    ensures { result ≡ tested rules.now.format (records_lent rules.now) i }
{
    let n = rules.n;
    let kind = w.kind;
    let one = w.one;
    let two = w.two;
    let three = w.three;
    let high = w.high;
    let unused = (three == Record::UNUSED) & (high == Record::UNUSED);
    if kind == Rule::FILL {
        return verdict_of_two(
            i,
            n,
            unused,
            one,
            two,
            holed_at(rules, one) & tree_at(rules, two),
        );
    }
    if kind == Rule::PART {
        return verdict_of_two(
            i,
            n,
            Rule::label_fits(w, rules.format),
            two,
            three,
            closed_at(rules, two) & closed_at(rules, three),
        );
    }
    if kind == Rule::JOIN {
        return verdict_of_two(
            i,
            n,
            unused,
            one,
            two,
            holed_at(rules, one) & holed_at(rules, two),
        );
    }
    Err(Refusal::Malformed(i as usize))
}

// Refusals 4 to 6 of the rules, from rule 0 up; else whether each names only lower ones.
fn test_rules(rules: &RuleRecords) -> Result<bool, Refusal>
    ensures { Tells rules.now.format (records_lent rules.now) result }
{
    let mut lower = true;
    for i in 0..rules.n {
        lower &= test_rule(rules, i)?;
    }
    Ok(lower)
}

// Refusal 7: the start rule isn't below n or isn't closed.
fn judge_start(rules: &RuleRecords, start: u16) -> Result<(), Refusal>
    ensures { result ≡ start_judged (records_lent rules.now) start }
{
    if rules.n <= start {
        return Err(Refusal::Start);
    }
    if !closed_at(rules, start) {
        return Err(Refusal::Start);
    }
    Ok(())
}

// Refusal 12, at the lowest rule that reaches itself.
fn cycle_from(lowest: u16) -> Result<(), Refusal>
    ensures { result ≡ Err (Refusal.Cycle lowest) }
{
    Err(Refusal::Cycle(lowest as usize))
}

// The most rules that each search has room for, and the bytes of that room.
pub const FEW_SEARCHED: u16 = 1024;

const MOST_SEARCHED: usize = 16384;

const SMALL: usize = 4 * (FEW_SEARCHED as usize);

const LARGE: usize = 4 * MOST_SEARCHED;

// Refusal 12 and then 7, of rules that pass 4 to 6: they are searched, in an array, for an order in which each stands after those that it
// names. It isn't put into its caller, so that the large array stands in no frame that a plan of few rules comes to (tests/stack.sh).
#[inline(never)]
fn search<const ROOM: usize>(rules: &RuleRecords, start: u16) -> Result<(), Refusal>
    requires { Searchable rules.now.format rules.now.bytes.now rules.now.first rules.now.n
        × (4 * rules.now.n ≤ ROOM)
        × (ROOM ≤ 4 * most_searched) }
    ensures { let ws = records_lent rules.now in
        result ≡ cycle_judged (lowest_cycle (rules_in rules.now.format ws)) (start_judged ws start) }
{
    let mut room = [0u8; ROOM];
    if reach_order::order(rules, &mut room) {
        return judge_start(rules, start);
    }
    cycle_from(reach_order::lowest(rules, &mut room))
}

// Refusals 4 to 7 and 12: rules from 0 up, then one that reaches itself, then the start. Rules that name only lower ones aren't searched, few
// others in the small array. It stands once in the machine code, for check and seal.
#[inline(never)]
pub fn judge_rules(rules: &RuleRecords, start: u16) -> Result<(), Refusal>
    requires { rules.now.n ≤ most_searched }
    ensures { result ≡ judged rules.now.format (records_lent rules.now) start }
{
    let lower = test_rules(rules)?;
    if lower {
        return judge_start(rules, start);
    }
    if rules.n <= FEW_SEARCHED {
        return search::<SMALL>(rules, start);
    }
    search::<LARGE>(rules, start)
}
