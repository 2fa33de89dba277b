// The variants that the copy's start reaches, marked, numbered and written (document 02, Note 6).
#![tactic(auto)]

ghost use Rattle.std.specs.Prelude.{◌≡◌, ◌+◌, ◌-◌, ◌*◌, ◌≤◌, ◌<◌, length};
ghost use Rattle.words.specs.Put.{put};
ghost use Rattle.rule.specs.Rule.{encode};
ghost use Rattle.copy_passes.specs.Passes.{renamed};
ghost use Rattle.copy_marks.specs.Marks.{mark_at, marks_end, mark_in, marked, number_in, variant_in, places_in};
ghost use Rattle.copy_marks.specs.Marks.{Markable, Nameable, MarkedOne, MarkedNamed, Passed, Unmarked, MarkedAll, Marked};
ghost use Rattle.copy_marks.specs.Written.{Writable, VariantWritten, Written};

use copy_rows::VARIANTS;
use record::{Format, Record};
use rule::Rule;

// Where the marks begin, in bytes a rule: behind the rows, a word a rule, and the order.
const MARKS: usize = 36;

// The mark of variant k.
fn mark_in(work: &[u8], n: u16, k: u16) -> u16
    requires { mark_at n k + 2 ≤ length work.now }
    ensures { result ≡ mark_in work.now n k }
{
    let at = MARKS * (n as usize);
    words::read16(work, at + 2 * (k as usize))
}

// Another mark for variant k.
fn put_mark(work: &mut [u8], n: u16, k: u16, v: u16)
    requires { mark_at n k + 2 ≤ length work.old }
    ensures { work.new ≡ put 2 work.old (mark_at n k) v }
{
    let at = MARKS * (n as usize);
    words::write16(work, at + 2 * (k as usize), v);
}

// Whether variant k is marked.
#[tactic(auto, unfolding(crate::specs::Marks::marked))]
fn is_marked(work: &[u8], n: u16, k: u16) -> bool
    requires { mark_at n k + 2 ≤ length work.now }
    ensures { result ≡ marked work.now n k }
{
    0 < mark_in(work, n, k)
}

// Variant k marked.
fn mark_one(work: &mut [u8], n: u16, k: u16)
    requires { (mark_at n k + 2 ≤ length work.old) × (k < 3 * n) }
    ensures { MarkedOne n k work.old work.new }
{
    put_mark(work, n, k, 1);
}

// Two variants marked.
fn mark_two(work: &mut [u8], n: u16, b: u16, c: u16)
    requires { Nameable work.old n (Rule.Pair b c) }
    ensures { MarkedNamed n (Rule.Pair b c) work.old work.new }
{
    mark_one(work, n, b);
    mark_one(work, n, c);
}

// The variants that a rule names marked.
fn mark_named(work: &mut [u8], n: u16, rule: Rule)
    requires { Nameable work.old n rule }
    ensures { MarkedNamed n rule work.old work.new }
{
    match rule {
        Rule::Empty => (),
        Rule::Pair { first, second } => mark_two(work, n, first, second),
        Rule::Node { under, .. } => mark_one(work, n, under),
        Rule::Fill { outer, inner } => mark_two(work, n, outer, inner),
        Rule::Part { left, right, .. } => mark_two(work, n, left, right),
        Rule::Join { outer, inner } => mark_two(work, n, outer, inner),
    }
}

// The variant named k.
fn variant_at(work: &[u8], n: u16, k: u16) -> Rule
    requires { Markable work.now n × (k < 3 * n) }
    ensures { result ≡ variant_in work.now k }
{
    copy_rows::variant_at(work, k / VARIANTS, k % VARIANTS)
}

// The variant at a place of their order: the variants of a rule stay side by side.
fn placed_at(work: &[u8], n: u16, i: u16) -> u16
    requires { Markable work.now n × (i < 3 * n) }
    ensures { (result ≡ places_in work.now n i) × (result < 3 * n) }
{
    let r = work_rows::order_at(work, n, i / VARIANTS);
    VARIANTS * r + i % VARIANTS
}

// If variant k is marked, those that it names are.
fn pass(work: &mut [u8], n: u16, k: u16)
    requires { Markable work.old n × (k < 3 * n) }
    ensures { Passed n k work.old work.new }
{
    if is_marked(work, n, k) {
        let rule = variant_at(work, n, k);
        mark_named(work, n, rule);
    }
}

// Down the order: what a marked variant names is marked.
fn mark_all(work: &mut [u8], n: u16)
    requires { Markable work.old n }
    ensures { MarkedAll n work.old work.new }
{
    for i in (0..VARIANTS * n).rev() {
        let k = placed_at(work, n, i);
        pass(work, n, k);
    }
}

// Where the marks end.
const MARKS_LENGTH: usize = 6;

// No variant marked.
fn clear_marks(work: &mut [u8], n: u16)
    requires { marks_end n ≤ length work.old }
    ensures { Unmarked n work.old work.new }
{
    let at = MARKS * (n as usize);
    let m = MARKS_LENGTH * (n as usize);
    words::clear(&mut work[at..], m);
}

// The first pass: the variants that variant start reaches are marked.
pub fn mark(work: &mut [u8], n: u16, start: u16)
    requires { Markable work.old n × (start < 3 * n) }
    ensures { Marked n start work.old work.new }
{
    clear_marks(work, n);
    mark_one(work, n, start);
    mark_all(work, n);
}

// The number of variant k, once it is written.
pub fn number_of(work: &[u8], n: u16, k: u16) -> u16
    requires { mark_at n k + 2 ≤ length work.now }
    ensures { result ≡ number_in work.now n k }
{
    let mark = mark_in(work, n, k);
    if mark == 0 {
        return 0;
    }
    mark - 1
}

// A rule with the numbers of the variants that it names.
#[tactic(auto, unfolding(copy_passes::specs::Passes::renamed))]
fn renumbered(work: &[u8], n: u16, rule: Rule) -> Rule
    requires { Nameable work.now n rule }
    ensures { result ≡ renamed (number_in work.now n) rule }
{
    match rule {
        Rule::Empty => Rule::Empty,
        Rule::Pair { first, second } => {
            let b = number_of(work, n, first);
            let c = number_of(work, n, second);
            Rule::Pair {
                first: b,
                second: c,
            }
        }
        Rule::Node { label, under } => {
            let c = number_of(work, n, under);
            Rule::Node { label, under: c }
        }
        Rule::Fill { outer, inner } => {
            let b = number_of(work, n, outer);
            let c = number_of(work, n, inner);
            Rule::Fill { outer: b, inner: c }
        }
        Rule::Part { label, left, right } => {
            let b = number_of(work, n, left);
            let c = number_of(work, n, right);
            Rule::Part {
                label,
                left: b,
                right: c,
            }
        }
        Rule::Join { outer, inner } => {
            let b = number_of(work, n, outer);
            let c = number_of(work, n, inner);
            Rule::Join { outer: b, inner: c }
        }
    }
}

// A record with these words.
fn record(kind: u16, one: u16, two: u16, three: u16, high: u16) -> Record
    ensures { result ≡ record { kind = kind; one = one; two = two; three = three; high = high } }
{
    Record {
        kind,
        one,
        two,
        three,
        high,
    }
}

// A rule's record.
#[tactic(auto, unfolding(rule::specs::Rule::encode))]
fn encode(rule: Rule) -> Record
    ensures { result ≡ encode rule }
{
    match rule {
        Rule::Empty => record(Rule::EMPTY, 0, 0, 0, 0),
        Rule::Pair { first, second } => record(Rule::PAIR, first, second, 0, 0),
        Rule::Node { label, under } => record(
            Rule::NODE,
            (label % Rule::HIGH_PART) as u16,
            under,
            0,
            (label / Rule::HIGH_PART) as u16,
        ),
        Rule::Fill { outer, inner } => record(Rule::FILL, outer, inner, 0, 0),
        Rule::Part { label, left, right } => record(
            Rule::PART,
            (label % Rule::HIGH_PART) as u16,
            left,
            right,
            (label / Rule::HIGH_PART) as u16,
        ),
        Rule::Join { outer, inner } => record(Rule::JOIN, outer, inner, 0, 0),
    }
}

// Variant k after m written ones: if it is marked, it gets number m and is written with its names renumbered. How many are written then.
fn write_variant(work: &mut [u8], out: &mut [u8], n: u16, k: u16, m: u16) -> u16
    requires { Writable work.old out.old n × (k < 3 * n) × (m < 3 * n) }
    ensures { VariantWritten n k m work.old out.old result work.new out.new }
{
    if is_marked(work, n, k) {
        let variant = variant_at(work, n, k);
        let rule = renumbered(work, n, variant);
        encode(rule).write(out, Format::Wide, Format::WIDE_LENGTH * (m as usize));
        put_mark(work, n, k, m + 1);
        return m + 1;
    }
    m
}

// The second pass, up the order: the marked variants numbered and written. How many they are.
pub fn write(work: &mut [u8], out: &mut [u8], n: u16) -> u16
    requires { Writable work.old out.old n }
    ensures { Written n work.old out.old result work.new out.new }
{
    let mut m = 0;
    for i in 0..VARIANTS * n {
        let k = placed_at(work, n, i);
        m = write_variant(work, out, n, k, m);
    }
    m
}
