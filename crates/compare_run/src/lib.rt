// Two stacks of tasks in the lent work compared by their tokens (document 02, Note 4): tasks that both have on top are skipped, with the
// count of their nodes; others are replaced by what they come to, until both say a token.
#![tactic(auto)]

ghost use Rattle.std.specs.Prelude.{◌≡◌, true, false, ◌+◌, ◌-◌, ◌*◌, ◌≤◌, ◌<◌, min, length, leb};
ghost use Rattle.forest.specs.Compare.{within};
ghost use Rattle.count_capped.specs.Count.{capped};
ghost use Rattle.compare_nodes.specs.Columns.{Countable, task_nodes_in};
ghost use Rattle.compare_run.specs.declared.Token.{Token};
ghost use Rattle.compare_run.specs.Turn.{top_in, top_step, next_token, token_nodes, progress, Readable, Turnable, TurnMade};
ghost use Rattle.compare_run.specs.Run.{Comparable, RunMade};

use count_capped::Count;
use forest::Compared;
use spread_step::{Said, Step};

// How far compare has come: the tasks left on each stack, whether all pairs agreed, and how many pairs of nodes that is.
#[derive(Clone, Copy)]
struct Progress {
    one: usize,
    two: usize,
    agree: bool,
    count: u64,
}

// A stack's next token: none yet, that there is no more, a node closed, or a node opened, with its label.
#[derive(Clone, Copy, Debug, PartialEq, Eq)]
enum Token {
    Silent,
    Ended,
    Closes,
    Opens(u32),
}

// The task on top of k tasks.
fn top(work: &[u8], from: usize, k: usize) -> u16
    requires { from + 2 * k ≤ length work.now }
    ensures { result ≡ top_in work.now from k }
{
    if k == 0 {
        return Step::NONE;
    }
    words::read16(work, from + 2 * (k - 1))
}

// What a task on top comes to.
fn step_of(work: &[u8], task: u16) -> Step
    requires { Readable work.now task }
    ensures { result ≡ top_step work.now task }
{
    if task == Step::NONE {
        return Step {
            said: Said::Nothing,
            low: Step::NONE,
            mid: Step::NONE,
            high: Step::NONE,
        };
    }
    spread_step::decide(work, task)
}

// The token that a task on top says.
#[tactic(auto, unfolding(crate::specs::Turn::next_token, crate::specs::Turn::said_token))]
fn next_token(task: u16, said: Said) -> Token
    ensures { result ≡ next_token task said }
{
    if task == Step::NONE {
        return Token::Ended;
    }
    match said {
        Said::Nothing => Token::Silent,
        Said::Opening(label) => Token::Opens(label),
        Said::Closing => Token::Closes,
    }
}

// A count with the node that a token opens.
#[tactic(auto, unfolding(crate::specs::Turn::token_nodes))]
fn counted(count: u64, token: Token, budget: u32) -> u64
    requires { count ≤ budget }
    ensures { result ≡ count + token_nodes token }
{
    match token {
        Token::Closes => count,
        _ => count + 1,
    }
}

// A count with nodes more, or one above the budget.
fn added(count: u64, nodes: Count, budget: u32) -> u64
    requires { count ≤ budget }
    ensures { result ≡ min (count + nodes) (budget + 1) }
{
    let most = budget as u64 + 1;
    match nodes.number() {
        Some(n) => count.saturating_add(n).min(most),
        None => most,
    }
}

// Whether the first of two tasks opens no fewer nodes, as far as they are counted.
fn no_fewer(work: &[u8], v: u16, w: u16) -> bool
    requires { Countable work.now v × Countable work.now w }
    ensures { let s = work.now in
        result ≡ leb (capped (task_nodes_in s w)) (capped (task_nodes_in s v)) }
{
    let Some(one) = compare_nodes::task_nodes(work, v).number() else {
        return true;
    };
    let Some(two) = compare_nodes::task_nodes(work, w).number() else {
        return false;
    };
    two <= one
}

// Whether the first stack's top is to be replaced: it says no token yet, and if the second's says none either, it opens no fewer nodes, so
// that rules that both share come to lie against each other.
fn first_turns(work: &[u8], v: u16, w: u16, p: Token, q: Token) -> bool
    requires { Countable work.now v × Countable work.now w }
    ensures { (result ≡ true → p ≡ Token.Silent) × (result ≡ false → p ≡ Token.Silent → q ≡ Token.Silent) }
{
    if p != Token::Silent {
        return false;
    }
    if q != Token::Silent {
        return true;
    }
    no_fewer(work, v, w)
}

// The same task on both stacks skipped.
fn skip(work: &[u8], task: u16, budget: u32, at: Progress) -> Progress
    requires { Countable work.now task × (at.count ≤ budget) }
    ensures { let count = min (at.count + task_nodes_in work.now task) (budget + 1) in
        result ≡ progress (at.one - 1) (at.two - 1) at.agree count }
{
    let nodes = compare_nodes::task_nodes(work, task);
    Progress {
        one: at.one.saturating_sub(1),
        two: at.two.saturating_sub(1),
        agree: at.agree,
        count: added(at.count, nodes, budget),
    }
}

// A turn where the tasks v and w on top aren't the same.
fn unlike(
    work: &mut [u8],
    first: usize,
    second: usize,
    v: u16,
    w: u16,
    budget: u32,
    at: Progress,
) -> Progress
    requires { Turnable work.old first second budget at
        × (v ≡ top_in work.old first at.one) × (w ≡ top_in work.old second at.two) × (v ≡ w → ⊥) }
    ensures { TurnMade first second budget at v w work.old result work.new }
{
    let x = step_of(work, v);
    let y = step_of(work, w);
    let x_said = x.said;
    let y_said = y.said;
    let p = next_token(v, x_said);
    let q = next_token(w, y_said);
    let mut next = at;
    if first_turns(work, v, w, p, q) {
        next.one = spread_stack::push_all(work, first, at.one.saturating_sub(1), x);
        return next;
    }
    if q == Token::Silent {
        next.two = spread_stack::push_all(work, second, at.two.saturating_sub(1), y);
        return next;
    }
    if p != q {
        return Progress {
            one: 0,
            two: 0,
            agree: false,
            count: at.count + 1,
        };
    }
    next.one = spread_stack::push_all(work, first, at.one.saturating_sub(1), x);
    next.two = spread_stack::push_all(work, second, at.two.saturating_sub(1), y);
    next.count = counted(at.count, p, budget);
    next
}

// One turn.
fn turn(work: &mut [u8], first: usize, second: usize, budget: u32, at: Progress) -> Progress
    requires { Turnable work.old first second budget at }
    ensures { let s = work.old in
        TurnMade first second budget at (top_in s first at.one) (top_in s second at.two) s result work.new }
{
    let v = top(work, first, at.one);
    let w = top(work, second, at.two);
    if v == w {
        return skip(work, v, budget, at);
    }
    unlike(work, first, second, v, w, budget, at)
}

// Whether there is more to compare: a task is left, and the count is within the budget.
fn unfinished(at: Progress, budget: u32) -> bool
    ensures { (result ≡ true → (at.count ≤ budget) × (0 < at.one + at.two))
        × (result ≡ false → at.count ≤ budget → (at.one ≡ 0) × (at.two ≡ 0)) }
{
    if (budget as u64) < at.count {
        return false;
    }
    if at.one != 0 {
        return true;
    }
    at.two != 0
}

// The answer: spent where the count is above the budget.
fn answer(budget: u32, agree: bool, count: u64) -> Compared
    ensures { result ≡ within budget (agree, count) }
{
    if (budget as u64) < count {
        return Compared::Spent(budget);
    }
    if agree {
        return Compared::Same(count as u32);
    }
    Compared::Differ(count as u32)
}

// One tasks of the stack that begins at first and two of the one at second compared, in a plan of n rules.
pub fn run(
    work: &mut [u8],
    n: u16,
    first: usize,
    one: usize,
    second: usize,
    two: usize,
    budget: u32,
) -> Compared
    requires { Comparable work.old n first one second two }
    ensures { RunMade n first one second two budget result work.old work.new }
{
    let mut at = Progress {
        one,
        two,
        agree: true,
        count: 0,
    };
    while unfinished(at, budget) {
        at = turn(work, first, second, budget, at);
    }
    answer(budget, at.agree, at.count)
}
