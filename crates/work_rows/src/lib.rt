// The rows of the lent work: a row for each rule, which begins with the rule itself.
#![tactic(auto)]

ghost use Rattle.std.specs.Prelude.{◌≡◌, ◌+◌, ◌-◌, ◌*◌, ◌≤◌, ◌<◌, length, get_or, eqb, ltb, ◌&&◌, ◌||◌};
ghost use Rattle.record.specs.Format.{word_length, length_of_record};
ghost use Rattle.rule.specs.Rule.{kind_empty, rules_in};
ghost use Rattle.record.specs.Records.{records_from};
ghost use Rattle.record.specs.RuleRecords.{records_lent};
ghost use Rattle.plan.specs.Check.{trailer_length, format_of};
ghost use Rattle.forest.specs.Outcome.{work_words, enough_work, cleared};
ghost use Rattle.work_rows.specs.Rows.{work_length, row_length, own_end, field, put_field, row_of, rule_from, row_at, put_row};
ghost use Rattle.work_rows.specs.Rows.{rule_at, rule_in, Stored, RowMeant, RecordPut, Formed, Loaded};
ghost use Rattle.reach.specs.Order.{numbers_from, lower_below};
ghost use Rattle.work_rows.specs.Rows.{Within};
ghost use Rattle.work_rows.specs.Order.{order_at, order_end, order_in};

use plan::Trailer;
use record::{Record, RuleRecords};
use rule::Rule;

// What a row keeps of its rule: the kind, the label and the rules named.
#[derive(Clone, Copy)]
pub struct Row {
    kind: u16,
    label: u32,
    one: u16,
    two: u16,
}

// A field of 16 bits at an offset of a row.
#[tactic(auto, unfolding(crate::specs::Rows::field))]
pub fn field16(work: &[u8], r: u16, offset: usize) -> u16
    requires { row_length * r + offset + 2 ≤ length work.now }
    ensures { result ≡ field 2 work.now r offset }
{
    words::read16(work, Row::LENGTH * (r as usize) + offset)
}

// A field of 32 bits at an offset of a row.
#[tactic(auto, unfolding(crate::specs::Rows::field))]
fn field32(work: &[u8], r: u16, offset: usize) -> u32
    requires { row_length * r + offset + 4 ≤ length work.now }
    ensures { result ≡ field 4 work.now r offset }
{
    words::read32(work, Row::LENGTH * (r as usize) + offset)
}

// A number into a field of 16 bits.
#[tactic(auto, unfolding(crate::specs::Rows::put_field))]
pub fn put16(work: &mut [u8], r: u16, offset: usize, v: u16)
    requires { row_length * r + offset + 2 ≤ length work.old }
    ensures { work.new ≡ put_field 2 work.old r offset v }
{
    words::write16(work, Row::LENGTH * (r as usize) + offset, v);
}

// A number into a field of 32 bits.
#[tactic(auto, unfolding(crate::specs::Rows::put_field))]
fn put32(work: &mut [u8], r: u16, offset: usize, v: u32)
    requires { row_length * r + offset + 4 ≤ length work.old }
    ensures { work.new ≡ put_field 4 work.old r offset v }
{
    words::write32(work, Row::LENGTH * (r as usize) + offset, v);
}

impl Row {
    // Bytes of a row.
    pub const LENGTH: usize = 32;

    // Where a row keeps its rule.
    pub const KIND: usize = 0;

    const LABEL: usize = 2;

    const ONE: usize = 6;

    const TWO: usize = 8;

    // A row with these words.
    fn with(kind: u16, label: u32, one: u16, two: u16) -> Row
        ensures { result ≡ record { kind = kind; label = label; one = one; two = two } }
    {
        Row {
            kind,
            label,
            one,
            two,
        }
    }

    // What a row keeps of the rule that a record means, straight from its words: unused ones are 0, and a label stands before the names.
    fn of_record(w: Record) -> Row
        ensures { RowMeant w result }
    {
        let kind = w.kind;
        let one = w.one;
        let two = w.two;
        let three = w.three;
        if (kind == Rule::NODE) | (kind == Rule::PART) {
            return Row::with(kind, Rule::label(w), two, three);
        }
        Row::with(kind, 0, one, two)
    }

    // Whether its rule names only rules below i: what a rule with one name lacks is 0, which is below i where that name is.
    fn names_below(self, i: u16) -> bool
        ensures { result ≡ (eqb self.kind kind_empty || (ltb self.one i && ltb self.two i)) }
    {
        (self.kind == Rule::EMPTY) | rule::both_below(self.one, self.two, i)
    }

    // What row r keeps of a rule at an offset.
    fn read(work: &[u8], r: u16, offset: usize) -> Row
        requires { row_length * r + offset + own_end ≤ length work.now }
        ensures { result ≡ row_at work.now r offset }
    {
        Row {
            kind: field16(work, r, offset + Row::KIND),
            label: field32(work, r, offset + Row::LABEL),
            one: field16(work, r, offset + Row::ONE),
            two: field16(work, r, offset + Row::TWO),
        }
    }

    // The four fields into row r at an offset.
    fn write(self, work: &mut [u8], r: u16, offset: usize)
        requires { row_length * r + offset + own_end ≤ length work.old }
        ensures { work.new ≡ put_row work.old r offset self }
    {
        put16(work, r, offset + Row::KIND, self.kind);
        put32(work, r, offset + Row::LABEL, self.label);
        put16(work, r, offset + Row::ONE, self.one);
        put16(work, r, offset + Row::TWO, self.two);
    }
}

// What a row keeps of a rule.
impl From<Rule> for Row {
    ghost from_gives = { λ rule row. row ≡ row_of rule };

    #[tactic(auto, unfolding(crate::specs::Rows::row_of))]
    fn from(rule: Rule) -> Row {
        match rule {
            Rule::Empty => Row::with(Rule::EMPTY, 0, 0, 0),
            Rule::Pair { first, second } => Row::with(Rule::PAIR, 0, first, second),
            Rule::Node { label, under } => Row::with(Rule::NODE, label, under, 0),
            Rule::Fill { outer, inner } => Row::with(Rule::FILL, 0, outer, inner),
            Rule::Part { label, left, right } => Row::with(Rule::PART, label, left, right),
            Rule::Join { outer, inner } => Row::with(Rule::JOIN, 0, outer, inner),
        }
    }
}

// The rule that a row keeps.
impl From<Row> for Rule {
    ghost from_gives = { λ row rule. rule ≡ rule_from row };

    #[tactic(auto, unfolding(crate::specs::Rows::rule_from))]
    fn from(row: Row) -> Rule {
        let Row {
            kind,
            label,
            one,
            two,
        } = row;
        match kind {
            Rule::PAIR => Rule::Pair {
                first: one,
                second: two,
            },
            Rule::NODE => Rule::Node { label, under: one },
            Rule::FILL => Rule::Fill {
                outer: one,
                inner: two,
            },
            Rule::PART => Rule::Part {
                label,
                left: one,
                right: two,
            },
            Rule::JOIN => Rule::Join {
                outer: one,
                inner: two,
            },
            _ => Rule::Empty,
        }
    }
}

// The rule kept at an offset of row r.
pub fn rule_in(work: &[u8], r: u16, offset: usize) -> Rule
    requires { row_length * r + offset + own_end ≤ length work.now }
    ensures { result ≡ rule_at work.now r offset }
{
    Rule::from(Row::read(work, r, offset))
}

// The rule that row r begins with.
#[tactic(auto, unfolding(crate::specs::Rows::rule_in))]
pub fn rule_at(work: &[u8], r: u16) -> Rule
    requires { row_length * (r + 1) ≤ length work.now }
    ensures { result ≡ rule_in work.now r }
{
    rule_in(work, r, 0)
}

// A rule into row r at an offset.
pub fn put_rule_in(work: &mut [u8], r: u16, offset: usize, rule: Rule)
    requires { row_length * r + offset + own_end ≤ length work.old }
    ensures { Stored r offset rule work.old work.new }
{
    let row = Row::from(rule);
    row.write(work, r, offset);
}

// The rule that a record means to the beginning of row r; and whether it names only rules below r.
fn put_record(work: &mut [u8], r: u16, w: Record) -> bool
    requires { row_length * (r + 1) ≤ length work.old }
    ensures { RecordPut r w result work.old work.new }
{
    let row = Row::of_record(w);
    row.write(work, r, 0);
    row.names_below(r)
}

// The rules, whose records are well formed, into the rows of work; and whether each names only lower ones.
fn load(rules: &RuleRecords, work: &mut [u8]) -> bool
    requires { (row_length * rules.now.n ≤ length work.old)
        × Formed rules.now.format rules.now.bytes.now rules.now.first rules.now.n }
    ensures { let n = rules.now.n in
        let rules = rules_in rules.now.format (records_lent rules.now) in
        Loaded rules n work.old work.new × (result ≡ lower_below rules n) }
{
    let mut lower = true;
    for i in 0..rules.n {
        lower &= put_record(work, i, rules.record(i));
    }
    lower
}

// The 16-bit words of work that a rule needs, of few rules and of many.
const FEW_RULES: u16 = 1024;

const WORK_WORDS: usize = 32;

const MANY_WORDS: usize = 40;

// The bytes that a rule of few needs; those of many need them too, and more.
pub const WORK_LENGTH: usize = 2 * WORK_WORDS;

// The words of work that n rules need.
#[tactic(auto, unfolding(forest::specs::Outcome::work_words))]
pub fn work_words(n: u16) -> usize
    ensures { result ≡ work_words n }
{
    if n <= FEW_RULES {
        WORK_WORDS * (n as usize)
    } else {
        MANY_WORDS * (n as usize)
    }
}

// Whether work has the words that n rules need.
#[tactic(auto, unfolding(forest::specs::Outcome::enough_work))]
pub fn enough_work(work: &[u8], n: u16) -> bool
    ensures { result ≡ enough_work n work.now }
{
    let words = work_words(n);
    words <= words::word_count(work)
}

// Where the order of n rules begins, in bytes a rule: behind the rows and a word a rule.
const ORDER: usize = Row::LENGTH + 2;

// The rule at a place of the order. The passes over the rows are alike, each rule in its turn, and each is a `for` of its own: one function for
// all, over a closure for the row, would have to take the loop's invariant from its caller, and be longer than the loops.
pub fn order_at(work: &[u8], n: u16, i: u16) -> u16
    requires { (order_end n ≤ length work.now) × (i < n) }
    ensures { result ≡ get_or (order_in work.now n) i 0 }
{
    let at = ORDER * (n as usize);
    words::read16(work, at + 2 * (i as usize))
}

// The n rules in the order of their numbers.
pub fn order_by_number(work: &mut [u8], n: u16)
    requires { order_end n ≤ length work.old }
    ensures { let work' = work.new in
        (order_in work' n ≡ numbers_from 0 n)
        × Within (order_at n) (order_end n) work.old work' }
{
    let at = ORDER * (n as usize);
    for i in 0..n {
        words::write16(work, at + 2 * (i as usize), i);
    }
}

// An accepted plan's n rules, which stand right before its trailer, into the rows of work; and whether each names only lower ones.
pub fn load_rules(plan: &[u8], work: &mut [u8], n: u16) -> bool
    requires { (length_of_record (format_of plan.now) * n + trailer_length ≤ length plan.now)
        × (row_length * n ≤ length work.old)
        × Formed (format_of plan.now) plan.now (length plan.now - trailer_length - length_of_record (format_of plan.now) * n) n }
    ensures { let s = plan.now in
        let f = format_of s in
        let rules = rules_in f (records_from f s (length s - trailer_length - length_of_record f * n) n) in
        Loaded rules n work.old work.new × (result ≡ lower_below rules n) }
{
    let format = Trailer::format(plan);
    let first = Trailer::first(plan, format, n);
    let rules = RuleRecords {
        bytes: plan,
        format,
        first,
        n,
    };
    load(&rules, work)
}

// Zeros into the words of work that n rules need.
pub fn clear_work(work: &mut [u8], n: u16)
    requires { word_length * work_words n ≤ length work.old }
    ensures { work.new ≡ cleared (word_length * work_words n) work.old }
{
    let words = work_words(n);
    words::clear(work, 2 * words);
}
