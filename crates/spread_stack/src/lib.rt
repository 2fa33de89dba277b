// The tasks of spread (document 01): one for each whole rule, and the stack of those still to be done.
#![tactic(auto)]

ghost use Rattle.std.specs.Prelude.{◌≡◌, ◌+◌, ◌*◌, ◌≤◌, length};
ghost use Rattle.words.specs.Put.{put};
ghost use Rattle.record.specs.Format.{label_length};
ghost use Rattle.work_rows.specs.Rows.{rule_in};
ghost use Rattle.spread_step.specs.Step.{said_bytes, Steppable};
ghost use Rattle.spread_stack.specs.Stack.{written, Pushed, AllPushed, Lifted, Held, Turnable, TurnMade};
ghost use Rattle.spread_stack.specs.Run.{meant, stack_text, Taskable, TaskPut, Tasked, Runnable, Ran, Spreadable};
ghost use Rattle.count_passes.specs.Says.{whole, says};

use record::Format;
use spread_step::{Said, Step};
use work_rows::Row;

// How far spread has come: the task in hand, how many tasks there are with it, and bytes written.
#[derive(Clone, Copy)]
struct State {
    task: u16,
    tasks: usize,
    at: usize,
}

// A task put on k others of the stack that begins at an offset; how many there are then.
fn push(work: &mut [u8], from: usize, k: usize, task: u16) -> usize
    requires { from + 2 * k + 2 ≤ length work.old }
    ensures { Pushed from k task result work.old work.new }
{
    if task == Step::NONE {
        return k;
    }
    words::write16(work, from + 2 * k, task);
    k + 1
}

// The tasks of a step put on k others.
pub fn push_all(work: &mut [u8], from: usize, k: usize, step: Step) -> usize
    requires { from + 2 * (k + 3) ≤ length work.old }
    ensures { AllPushed from k step result work.old work.new }
{
    let one = push(work, from, k, step.low);
    let two = push(work, from, one, step.mid);
    push(work, from, two, step.high)
}

// A label's bytes, low first, written after at others: one, or three of a wide label; how many there are then.
fn put_label(out: &mut [u8], at: usize, label: u32, format: Format) -> usize
    requires { at + label_length format ≤ length out.old }
    ensures { (result ≡ at + label_length format)
        × (out.new ≡ put (label_length format) out.old at label) }
{
    out[at] = (label % 256) as u8;
    match format {
        Format::Narrow => at + 1,
        Format::Wide => {
            out[at + 1] = (label / 256 % 256) as u8;
            out[at + 2] = (label / 65536 % 256) as u8;
            at + 3
        }
    }
}

// A step's bytes written after at others; how many there are then.
fn say(out: &mut [u8], at: usize, said: Said, format: Format) -> usize
    requires { at + length (said_bytes format said) ≤ length out.old }
    ensures { (result ≡ at + length (said_bytes format said))
        × (out.new ≡ written out.old at (said_bytes format said)) }
{
    match said {
        Said::Nothing => at,
        Said::Opening(label) => {
            out[at] = Step::OPENING;
            put_label(out, at + 1, label, format)
        }
        Said::Closing => {
            out[at] = Step::CLOSING;
            at + 1
        }
    }
}

// The top one of k tasks on the stack taken in hand, if there is one.
fn lift(work: &[u8], from: usize, k: usize, at: usize) -> State
    requires { from + 2 * k ≤ length work.now }
    ensures { Lifted from k at result work.now }
{
    if k == 0 {
        return State {
            task: Step::NONE,
            tasks: 0,
            at,
        };
    }
    State {
        task: words::read16(work, from + 2 * (k - 1)),
        tasks: k,
        at,
    }
}

// The tasks of a step on k others, with the top one in hand and not on the stack.
fn hold(work: &mut [u8], from: usize, k: usize, step: Step, at: usize) -> State
    requires { from + 2 * (k + 3) ≤ length work.old }
    ensures { Held from k step at result work.old work.new }
{
    if step.high != Step::NONE {
        let one = push(work, from, k, step.low);
        let two = push(work, from, one, step.mid);
        return State {
            task: step.high,
            tasks: two + 1,
            at,
        };
    }
    if step.mid != Step::NONE {
        let under = push(work, from, k, step.low);
        return State {
            task: step.mid,
            tasks: under + 1,
            at,
        };
    }
    if step.low != Step::NONE {
        return State {
            task: step.low,
            tasks: k + 1,
            at,
        };
    }
    lift(work, from, k, at)
}

// One turn: the task in hand, over k others, is replaced by what it comes to.
fn turn(
    work: &mut [u8],
    out: &mut [u8],
    from: usize,
    task: u16,
    k: usize,
    at: usize,
    format: Format,
) -> State
    requires { Turnable format work.old out.old from task k at }
    ensures { let work' = work.exit.now in
        let out' = out.exit.now in
        let work = work.entry.now in
        let out = out.entry.now in
        TurnMade format from task k at result work work' out out' }
{
    let step = spread_step::decide(work, task);
    let said = step.said;
    let next = say(out, at, said, format);
    hold(work, from, k, step, next)
}

// The task of row r's whole rule, written to the row.
fn task_row(work: &mut [u8], r: u16)
    requires { Steppable work.old r (rule_in work.old r) }
    ensures { TaskPut r work.old work.new }
{
    let task = spread_step::task_of(work, r, work_rows::rule_at(work, r));
    work_rows::put16(work, r, Step::TASK, task);
}

// The tasks of all whole rules, in their order.
pub fn task_rows(work: &mut [u8], n: u16)
    requires { Taskable work.old n }
    ensures { Tasked n work.old work.new }
{
    for i in 0..n {
        let r = work_rows::order_at(work, n, i);
        task_row(work, r);
    }
}

// The tasks on the stack, done one after the other; how many bytes they wrote.
fn run(work: &mut [u8], out: &mut [u8], n: u16, first: usize, format: Format) -> usize
    requires { Runnable format work.old out.old n first }
    ensures { let text = stack_text format work.old n first in
        Ran n text result work.old work.new out.old out.new }
{
    let from = Row::LENGTH * (n as usize);
    let start = lift(work, from, first, 0);
    let mut task = start.task;
    let mut k = start.tasks;
    let mut at = start.at;
    while 0 < k {
        let state = turn(work, out, from, task, k - 1, at, format);
        task = state.task;
        k = state.tasks;
        at = state.at;
    }
    at
}

// The text of rule r, written to the front of the output; its length.
pub fn spread_rule(work: &mut [u8], out: &mut [u8], n: u16, r: u16, format: Format) -> usize
    requires { Spreadable format work.old out.old n r }
    ensures { let text = says format (meant work.old n r) whole in
        Ran n text result work.old work.new out.old out.new }
{
    let task = spread_step::whole(work, r);
    let k = push(work, Row::LENGTH * (n as usize), 0, task);
    run(work, out, n, k, format)
}
