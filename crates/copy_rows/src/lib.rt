// The variants of each rule, of which the client's copy is made, in its row behind the rule (document 02, Note 6).
#![tactic(auto)]

ghost use Rattle.std.specs.Prelude.{◌≡◌, cond, ◌*◌, ◌≤◌, ◌<◌};
ghost use Rattle.rule.specs.Rule.{holed, tree};
ghost use Rattle.rule.specs.declared.Rule.{Rule};
ghost use Rattle.work_rows.specs.Rows.{own_end, rule_at, rule_in};
ghost use Rattle.count_passes.specs.Tally.{Ready};
ghost use Rattle.copy_variants.specs.Variants.{kind_of, filling, variant, variant_name, whole_name};
ghost use Rattle.copy_rows.specs.Table.{most_copied, seen_at, inner_of, variants_at, row_variants};
ghost use Rattle.copy_rows.specs.Table.{Fits, Readable, NamesFew, RowVaried, VariedRows};

use rule::Rule;

// The variants by number.
const INNER: u16 = 0;

pub const WHOLE: u16 = 1;

const SHUT: u16 = 2;

// How many variants a rule has.
pub const VARIANTS: u16 = 3;

// Where a row keeps the whole variant and the shut one, and whether its rule's own label may be seen.
const AT_WHOLE: usize = 10;

const AT_SHUT: usize = 20;

pub const AT_SEEN: usize = 30;

// What stands there where it may, and where it may not.
pub const SEEN: u16 = 1;

pub const HIDDEN: u16 = 0;

// The name of variant t of rule r.
pub fn name(r: u16, t: u16) -> u16
    requires { (r < most_copied) × (t < 3) }
    ensures { result ≡ variant_name r t }
{
    VARIANTS * r + t
}

// Whether a rule is holed.
#[tactic(auto, unfolding(rule::specs::Rule::encode, rule::specs::Rule::holed))]
fn is_holed(rule: Rule) -> bool
    ensures { result ≡ holed (kind_of rule) }
{
    matches!(rule, Rule::Part { .. } | Rule::Join { .. })
}

// Whether a rule is a tree.
#[tactic(auto, unfolding(rule::specs::Rule::encode, rule::specs::Rule::tree))]
fn is_tree(rule: Rule) -> bool
    ensures { result ≡ tree (kind_of rule) }
{
    matches!(rule, Rule::Node { .. } | Rule::Fill { .. })
}

// The whole variant of a rule, named b, around z, named c. Where its hole is gone nothing is filled; where z is empty the hole is shut.
#[tactic(auto, unfolding(copy_variants::specs::Variants::filling))]
fn put(whole: Rule, shut: Rule, b: u16, z: Rule, c: u16) -> Rule
    ensures { result ≡ filling (record { inner = Rule.Empty; whole = whole; shut = shut }) b z c }
{
    if is_holed(whole) {
        if is_holed(z) {
            return Rule::Join { outer: b, inner: c };
        }
        if is_tree(z) {
            return Rule::Fill { outer: b, inner: c };
        }
        return shut;
    }
    whole
}

// The whole variant of rule b around variant t of rule c.
fn around(work: &[u8], b: u16, c: u16, t: u16) -> Rule
    requires { Fits work.now b × Fits work.now c × (t < 3) }
    ensures { let s = work.now in
        result ≡ filling (variants_at s b) (whole_name b) (rule_at s c (own_end * t)) (variant_name c t) }
{
    let whole = work_rows::rule_in(work, b, AT_WHOLE);
    let shut = work_rows::rule_in(work, b, AT_SHUT);
    let z = work_rows::rule_in(work, c, AT_WHOLE * (t as usize));
    put(whole, shut, name(b, WHOLE), z, name(c, t))
}

// Whether the own label of row r's rule, if it has one, may be seen.
#[tactic(auto, unfolding(crate::specs::Table::seen_at))]
fn seen_at(work: &[u8], r: u16) -> bool
    requires { Fits work.now r }
    ensures { result ≡ seen_at work.now r }
{
    work_rows::field16(work, r, AT_SEEN) == SEEN
}

// A right-hand side whose label may be seen, else the empty one.
fn if_seen(seen: bool, rule: Rule) -> Rule
    ensures { result ≡ cond seen rule Rule.Empty }
{
    if seen { rule } else { Rule::Empty }
}

// A pair of whole variants.
fn pair(b: u16, c: u16) -> Rule
    requires { (b < most_copied) × (c < most_copied) }
    ensures { result ≡ Rule.Pair (whole_name b) (whole_name c) }
{
    let first = name(b, WHOLE);
    let second = name(c, WHOLE);
    Rule::Pair { first, second }
}

// A part of whole variants.
fn part(label: u32, b: u16, c: u16) -> Rule
    requires { (b < most_copied) × (c < most_copied) }
    ensures { result ≡ Rule.Part label (whole_name b) (whole_name c) }
{
    let left = name(b, WHOLE);
    let right = name(c, WHOLE);
    Rule::Part { label, left, right }
}

// A node over variant t of rule b.
fn node(label: u32, b: u16, t: u16) -> Rule
    requires { (b < most_copied) × (t < 3) }
    ensures { result ≡ Rule.Node label (variant_name b t) }
{
    let under = name(b, t);
    Rule::Node { label, under }
}

// The whole variant of row r's rule, from the rows of the rules that it names.
#[tactic(auto, unfolding(copy_variants::specs::Variants::variants_from, crate::specs::Table::variants_at))]
fn whole_of(work: &[u8], r: u16, rule: Rule) -> Rule
    requires { Readable work.now r rule }
    ensures { result ≡ (row_variants work.now r rule).whole }
{
    match rule {
        Rule::Empty => Rule::Empty,
        Rule::Pair { first, second } => pair(first, second),
        Rule::Node { label, under } => if_seen(seen_at(work, r), node(label, under, WHOLE)),
        Rule::Part { label, left, right } => if_seen(seen_at(work, r), part(label, left, right)),
        Rule::Fill { outer, inner } | Rule::Join { outer, inner } => around(
            work, outer, inner, WHOLE,
        ),
    }
}

// The shut variant: that of a closed rule is the whole one.
#[tactic(auto, unfolding(copy_variants::specs::Variants::variants_from, crate::specs::Table::variants_at))]
fn shut_of(work: &[u8], r: u16, rule: Rule, whole: Rule) -> Rule
    requires { Readable work.now r rule × (whole ≡ (row_variants work.now r rule).whole) }
    ensures { result ≡ (row_variants work.now r rule).shut }
{
    match rule {
        Rule::Empty | Rule::Pair { .. } | Rule::Node { .. } | Rule::Fill { .. } => whole,
        Rule::Part { label, .. } => if_seen(seen_at(work, r), node(label, r, INNER)),
        Rule::Join { outer, inner } => around(work, outer, inner, SHUT),
    }
}

// Both variants of row r's rule, written to the row.
fn vary_row(work: &mut [u8], r: u16)
    requires { Readable work.old r (rule_in work.old r) }
    ensures { RowVaried r work.old work.new }
{
    let rule = work_rows::rule_at(work, r);
    let whole = whole_of(work, r, rule);
    let shut = shut_of(work, r, rule, whole);
    work_rows::put_rule_in(work, r, AT_WHOLE, whole);
    work_rows::put_rule_in(work, r, AT_SHUT, shut);
}

// The variants of every rule, in their order.
pub fn vary_rows(work: &mut [u8], n: u16)
    requires { Ready work.old n × (n ≤ most_copied) }
    ensures { VariedRows n work.old work.new }
{
    for i in 0..n {
        let r = work_rows::order_at(work, n, i);
        vary_row(work, r);
    }
}

// The inner variant of a rule.
#[tactic(auto, unfolding(crate::specs::Table::inner_of))]
fn inner_of(rule: Rule) -> Rule
    requires { NamesFew rule }
    ensures { result ≡ inner_of rule }
{
    match rule {
        Rule::Part { left, right, .. } => pair(left, right),
        _ => Rule::Empty,
    }
}

// Variant t of row r's rule.
pub fn variant_at(work: &[u8], r: u16, t: u16) -> Rule
    requires { Readable work.now r (rule_in work.now r) × (t < 3) }
    ensures { result ≡ variant (variants_at work.now r) t }
{
    if t == INNER {
        return inner_of(work_rows::rule_at(work, r));
    }
    work_rows::rule_in(work, r, AT_WHOLE * (t as usize))
}
