// An order of a plan's rules in which each stands after those that it names, or a rule that reaches itself (document 02, Note 1).
#![tactic(auto)]

ghost use Rattle.std.specs.Prelude.{◌≡◌, ◌+◌, ◌*◌, ◌≤◌, ◌<◌, length, Some};
ghost use Rattle.words.specs.Within.{Within};
ghost use Rattle.rule.specs.Sound.{rule};
ghost use Rattle.reach.specs.Reaches.{reaches, lowest_cycle};
ghost use Rattle.reach_order.specs.Named.{names_of};
ghost use Rattle.reach_order.specs.Room.{rules_lent, mark_in, Marked, ReadyFor, Placed};
ghost use Rattle.reach_order.specs.Search.{Searching, Cyclic, Chosen, Turned, Found, Visited, Answered};
ghost use Rattle.reach_order.specs.Queue.{Listable, Listed, Following};

use record::RuleRecords;
use rule::Rule;

// What the rules that the top of the stack names ask for: that one is opened first, the end since one is open, or that the top is closed.
#[derive(Clone, Copy)]
enum Next {
    Open(u16),
    Stop,
    Close,
}

// What a turn of the search did.
#[derive(Clone, Copy)]
enum Step {
    Opened,
    Closed,
    Cycle,
}

// The marks of rules: not seen yet, open (on the stack), done (in the order).
const UNSEEN: u16 = 0;

const OPEN: u16 = 1;

const DONE: u16 = 2;

// The rules that a rule names: none, or two, which are the same where it names one.
fn named_by(rule: Rule) -> Option<(u16, u16)>
    ensures { result ≡ names_of rule }
{
    match rule {
        Rule::Empty => None,
        Rule::Pair { first, second } => Some((first, second)),
        Rule::Node { under, .. } => Some((under, under)),
        Rule::Fill { outer, inner } => Some((outer, inner)),
        Rule::Part { left, right, .. } => Some((left, right)),
        Rule::Join { outer, inner } => Some((outer, inner)),
    }
}

// The rules that rule i names.
fn names_at(rules: RuleRecords, i: u16) -> Option<(u16, u16)>
    requires { i < rules.n }
    ensures { result ≡ names_of (rule (rules_lent rules.entry) i) }
{
    let rule = Rule::decode(rules.record(i), rules.format)?;
    named_by(rule)
}

// The mark of rule i.
fn mark(room: &[u8], i: u16) -> u16
    requires { 2 * i + 2 ≤ length room.now }
    ensures { result ≡ mark_in room.now i }
{
    words::read16(room, 2 * (i as usize))
}

// A mark for rule k of n, and its number into the word at an offset past the marks.
fn place(room: &mut [u8], n: u16, k: u16, v: u16, at: usize)
    requires { (k < n) × (2 * n ≤ at) × (at + 2 ≤ 4 * n) × (4 * n ≤ length room.old) }
    ensures { Placed n k v at room.old room.new }
{
    words::write16(room, 2 * (k as usize), v);
    words::write16(room, at, k);
}

// What the named rules ask for, by their marks.
fn choose(room: &[u8], named: Option<(u16, u16)>) -> Next
    requires { Marked named room.now }
    ensures { Chosen (mark_in room.now) named result }
{
    let Some((a, b)) = named else {
        return Next::Close;
    };
    let one = mark(room, a);
    let two = mark(room, b);
    if one == UNSEEN {
        return Next::Open(a);
    }
    if one == OPEN {
        return Next::Stop;
    }
    if two == UNSEEN {
        return Next::Open(b);
    }
    if two == OPEN {
        return Next::Stop;
    }
    Next::Close
}

// One turn: the rule on top of the stack, of top rules that are open, and what the rules that it names ask for.
fn turn(rules: RuleRecords, room: &mut [u8], top: usize, done: usize) -> Step
    requires { ReadyFor rules room.old
        × Searching (rules_lent rules) rules.n room.old top done
        × (0 < top) }
    ensures { Turned (rules_lent rules.entry) rules.entry.n top done result room.old room.new }
{
    let n = rules.n;
    let half = 2 * (n as usize);
    let over = 2 * half - 2 * top;
    let r = words::read16(room, over);
    match choose(room, names_at(rules, r)) {
        Next::Open(k) => {
            place(room, n, k, OPEN, over - 2);
            Step::Opened
        }
        Next::Stop => Step::Cycle,
        Next::Close => {
            place(room, n, r, DONE, half + 2 * done);
            Step::Closed
        }
    }
}

// Turns until no rule is open, beginning with one: how many rules are then done, or none where some rule reaches itself.
fn run(rules: RuleRecords, room: &mut [u8], begun: usize) -> Option<usize>
    requires { ReadyFor rules room.old × Searching (rules_lent rules) rules.n room.old 1 begun }
    ensures { Found (rules_lent rules.entry) rules.entry.n result room.old room.new }
{
    let mut top: usize = 1;
    let mut done = begun;
    while 0 < top {
        match turn(rules, room, top, done) {
            Step::Opened => top += 1,
            Step::Closed => {
                top -= 1;
                done += 1;
            }
            Step::Cycle => return None,
        }
    }
    Some(done)
}

// The search from rule i, if it hasn't been seen.
fn visit(rules: RuleRecords, room: &mut [u8], i: u16, done: usize) -> Option<usize>
    requires { ReadyFor rules room.old
        × Searching (rules_lent rules) rules.n room.old 0 done
        × (i < rules.n) }
    ensures { Visited (rules_lent rules.entry) rules.entry.n i result room.old room.new }
{
    if mark(room, i) != UNSEEN {
        return Some(done);
    }
    place(room, rules.n, i, OPEN, 4 * (rules.n as usize) - 2);
    run(rules, room, done)
}

// The search from every rule, once the room is cleared.
fn visit_all(rules: RuleRecords, room: &mut [u8]) -> bool
    requires { ReadyFor rules room.old × Searching (rules_lent rules) rules.n room.old 0 0 }
    ensures { Answered (rules_lent rules.entry) rules.entry.n result room.old room.new }
{
    let mut done: usize = 0;
    for i in 0..rules.n {
        match visit(rules, room, i, done) {
            Some(d) => done = d,
            None => return false,
        }
    }
    true
}

// Whether there is an order of the rules. It ends in the room: n words behind n others.
pub fn order(rules: &RuleRecords, room: &mut [u8]) -> bool
    requires { ReadyFor rules.now room.old }
    ensures { Answered (rules_lent rules.now) rules.now.n result room.old room.new }
{
    // A copy: behind the reference the fields would be read again after each write to the room.
    let rules = *rules;
    words::clear(room, 4 * (rules.n as usize));
    visit_all(rules, room)
}

// Rule k put behind m others of the queue, if it hasn't been seen; how many there are then.
fn enqueue(room: &mut [u8], n: u16, k: u16, m: usize) -> usize
    requires { Listable (Some (k, k)) n m room.old }
    ensures { Listed (Some (k, k)) n m result room.old room.new }
{
    if mark(room, k) != UNSEEN {
        return m;
    }
    place(room, n, k, OPEN, 2 * (n as usize) + 2 * m);
    m + 1
}

// The named rules put behind m others.
fn enqueue_all(room: &mut [u8], n: u16, named: Option<(u16, u16)>, m: usize) -> usize
    requires { Listable named n m room.old }
    ensures { Listed named n m result room.old room.new }
{
    let Some((a, b)) = named else {
        return m;
    };
    let one = enqueue(room, n, a, m);
    enqueue(room, n, b, one)
}

// The rules in the queue taken one after another, and those that they name put behind, until rule i is taken or none is left.
fn follow(rules: RuleRecords, i: u16, room: &mut [u8], begun: usize) -> bool
    requires { ReadyFor rules room.old × Following (rules_lent rules) rules.n i room.old begun 0 }
    ensures { let n = rules.entry.n in
        (result ≡ reaches (rules_lent rules.entry) i i) × Within 0 (4 * n) room.old room.new }
{
    let mut m = begun;
    let mut taken: usize = 0;
    while taken < m {
        let r = words::read16(room, 2 * (rules.n as usize) + 2 * taken);
        if r == i {
            return true;
        }
        m = enqueue_all(room, rules.n, names_at(rules, r), m);
        taken += 1;
    }
    false
}

// Whether rule i reaches itself.
fn reaches_itself(rules: RuleRecords, i: u16, room: &mut [u8]) -> bool
    requires { ReadyFor rules room.old × (i < rules.n) }
    ensures { let n = rules.entry.n in
        (result ≡ reaches (rules_lent rules.entry) i i) × Within 0 (4 * n) room.old room.new }
{
    words::clear(room, 2 * (rules.n as usize));
    let m = enqueue_all(room, rules.n, names_at(rules, i), 0);
    follow(rules, i, room, m)
}

// The lowest rule that reaches itself, of rules of which some does.
pub fn lowest(rules: &RuleRecords, room: &mut [u8]) -> u16
    requires { ReadyFor rules.now room.old × Cyclic (rules_lent rules.now) }
    ensures { let n = rules.now.n in
        (lowest_cycle (rules_lent rules.now) ≡ Some result) × Within 0 (4 * n) room.old room.new }
{
    // A copy, as in `order`.
    let rules = *rules;
    for r in 0..rules.n {
        if reaches_itself(rules, r, room) {
            return r;
        }
    }
    unreachable!()
}
