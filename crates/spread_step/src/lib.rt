// What a task of spread (document 01) comes to: bytes to write, and up to three tasks to do after them.
#![tactic(auto)]

ghost use Rattle.std.specs.Prelude.{◌≡◌, cond, ℕ, ◌+◌, ◌*◌, ◌≤◌, ◌<◌, eqb, length};
ghost use Rattle.rule.specs.declared.Rule.{Rule};
ghost use Rattle.work_rows.specs.Rows.{row_length};
ghost use Rattle.spread_step.specs.Task.{parts, no_task, task_limit, task_word, task_of};
ghost use Rattle.spread_step.specs.Step.{leaving, rule_step, tasks_at, step_in, Steppable, Decidable};

use rule::Rule;
use work_rows::Row;

// What a step writes.
#[derive(Clone, Copy)]
pub enum Said {
    Nothing,
    Opening(u32),
    Closing,
}

// What a task comes to: bytes to write, and up to three tasks to do after them, the last one first.
#[derive(Clone, Copy)]
pub struct Step {
    pub said: Said,
    pub low: u16,
    pub mid: u16,
    pub high: u16,
}

impl Step {
    // A task's word is 4 × rule + part: the whole text, what stands before the hole, or after it.
    pub const PARTS: u16 = 4;

    pub const WHOLE: u16 = 0;

    pub const BEFORE: u16 = 1;

    pub const AFTER: u16 = 2;

    // Words of the fourth part are of no rule: the byte that closes a node, and no task, which is the whole text of an empty rule.
    pub const CLOSE: u16 = 3;

    pub const NONE: u16 = 65535;

    // Where a row keeps the task of its whole rule.
    pub const TASK: usize = 30;

    // The byte that opens a node's text.
    pub const OPENING: u8 = 40;

    // The byte that closes it.
    pub const CLOSING: u8 = 41;

    // The task of a part of rule r.
    pub fn task(r: u16, p: u16) -> u16
        requires { (r < task_limit) × (p < parts) }
        ensures { result ≡ task_word r p }
    {
        Step::PARTS * r + p
    }

    // A step that writes nothing.
    fn nothing(low: u16, mid: u16, high: u16) -> Step
        ensures { result ≡ leaving Said.Nothing low mid high }
    {
        Step {
            said: Said::Nothing,
            low,
            mid,
            high,
        }
    }

    // A step that opens a node.
    fn opening(label: u32, low: u16, mid: u16) -> Step
        ensures { result ≡ leaving (Said.Opening label) low mid no_task }
    {
        Step {
            said: Said::Opening(label),
            low,
            mid,
            high: Step::NONE,
        }
    }
}

// The task of the whole of rule r.
pub fn whole(work: &[u8], r: u16) -> u16
    requires { row_length * r + 32 ≤ length work.now }
    ensures { result ≡ tasks_at work.now r }
{
    work_rows::field16(work, r, Step::TASK)
}

// The task of a pair, from those of its sides: an empty side leaves the other's.
fn pair_task(b: u16, c: u16, own: u16) -> u16
    ensures { result ≡ cond (eqb b no_task) c (cond (eqb c no_task) b own) }
{
    if b == Step::NONE {
        return c;
    }
    if c == Step::NONE {
        return b;
    }
    own
}

// The task of the whole of rule r, from those of the rules that it names.
#[tactic(auto, unfolding(crate::specs::Task::task_of))]
pub fn task_of(work: &[u8], r: u16, rule: Rule) -> u16
    requires { Steppable work.now r rule }
    ensures { result ≡ task_of (tasks_at work.now) r rule }
{
    let own = Step::task(r, Step::WHOLE);
    match rule {
        Rule::Empty => Step::NONE,
        Rule::Pair { first, second } => pair_task(whole(work, first), whole(work, second), own),
        Rule::Node { .. } | Rule::Fill { .. } | Rule::Part { .. } | Rule::Join { .. } => own,
    }
}

// What part p of rule r's text comes to.
#[tactic(auto, unfolding(crate::specs::Step::rule_step))]
fn rule_step(work: &[u8], r: u16, p: u16, rule: Rule) -> Step
    requires { Steppable work.now r rule }
    ensures { result ≡ rule_step (tasks_at work.now) r p rule }
{
    let none = Step::NONE;
    match rule {
        Rule::Empty => Step::nothing(none, none, none),
        Rule::Pair { first, second } => Step::nothing(
            whole(work, second),
            whole(work, first),
            none,
        ),
        Rule::Node { label, under } => Step::opening(label, Step::CLOSE, whole(work, under)),
        Rule::Fill { outer, inner } => Step::nothing(
            Step::task(outer, Step::AFTER),
            whole(work, inner),
            Step::task(outer, Step::BEFORE),
        ),
        Rule::Part { label, left, right } => part_step(work, r, p, label, left, right),
        Rule::Join { outer, inner } => join_step(p, outer, inner),
    }
}

// The same of a part, before its hole or after it.
fn part_step(work: &[u8], r: u16, p: u16, label: u32, left: u16, right: u16) -> Step
    requires { Steppable work.now r (Rule.Part label left right) }
    ensures { result ≡ rule_step (tasks_at work.now) r p (Rule.Part label left right) }
{
    if p == Step::BEFORE {
        return Step::opening(label, whole(work, left), Step::NONE);
    }
    Step::nothing(Step::CLOSE, whole(work, right), Step::NONE)
}

// The same of a join.
fn join_step(p: u16, outer: u16, inner: u16) -> Step
    requires { (outer < task_limit) × (inner < task_limit) }
    ensures { (f : ℕ → ℕ) (r : ℕ) → result ≡ rule_step f r p (Rule.Join outer inner) }
{
    if p == Step::BEFORE {
        return Step::nothing(
            Step::task(inner, Step::BEFORE),
            Step::task(outer, Step::BEFORE),
            Step::NONE,
        );
    }
    Step::nothing(
        Step::task(outer, Step::AFTER),
        Step::task(inner, Step::AFTER),
        Step::NONE,
    )
}

// What a task comes to.
pub fn decide(work: &[u8], task: u16) -> Step
    requires { Decidable work.now task }
    ensures { result ≡ step_in work.now task }
{
    if task == Step::CLOSE {
        return Step {
            said: Said::Closing,
            low: Step::NONE,
            mid: Step::NONE,
            high: Step::NONE,
        };
    }
    let r = task / Step::PARTS;
    // What a task comes to doesn't depend on this test: it parts the kinds, so that the code made of it tells each by a few tests and not
    // by a table of jumps.
    if work_rows::field16(work, r, Row::KIND) < Rule::FILL {
        return rule_step(work, r, task % Step::PARTS, work_rows::rule_at(work, r));
    }
    rule_step(work, r, task % Step::PARTS, work_rows::rule_at(work, r))
}
