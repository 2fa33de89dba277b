// The tasks that compare begins with at a place (document 02, Note 4): those of the subtree there, put on a stack in the lent work. The
// stack grows at both ends.
#![tactic(auto)]

ghost use Rattle.std.specs.Prelude.{◌≡◌, [], ◌∷◌, ◌+◌, ◌*◌, ◌≤◌, ◌<◌, length};
ghost use Rattle.forest.specs.Walk.{cell_at};
ghost use Rattle.count_passes.specs.Says.{whole, before, after};
ghost use Rattle.spread_step.specs.Task.{task_limit, task_word};
ghost use Rattle.compare_tokens.specs.Parts.{around};
ghost use Rattle.place_cells.specs.Cells.{Lies};
ghost use Rattle.compare_begin.specs.Stack.{tasks_of, kept_rule, kept_run, Room, Grown, Laid, LeftRun, is_run, over_run};
ghost use Rattle.compare_begin.specs.Stack.{opened_by, RunsAbove, hole_in, CellRun, CellRuns, Openable, Holed};
ghost use Rattle.compare_begin.specs.Begin.{Beginnable, BegunAt};

use place_cells::Cell;
use rule::Rule;
use spread_step::Step;

// A stack of tasks in the lent work: where it begins, and how many there are.
#[derive(Clone, Copy)]
pub struct Begun {
    pub from: usize,
    pub tasks: usize,
}

// Rule r's part before its hole put on the stack, and the one after it under its base.
fn around(work: &mut [u8], x: Begun, r: u16) -> Begun
    requires { Room 0 (x.tasks + 2) x work.old × (r < task_limit) }
    ensures { let s = work.old in
        Grown (around (task_word r before) (task_word r after) (tasks_of s x)) x result s work.new }
{
    let from = x.from - 2;
    let tasks = x.tasks;
    let top = x.from + 2 * tasks;
    words::write16(work, from, Step::task(r, Step::AFTER));
    words::write16(work, top, Step::task(r, Step::BEFORE));
    Begun {
        from,
        tasks: tasks + 2,
    }
}

// A stack with one task: the whole of rule r.
fn lay(work: &mut [u8], at: usize, r: u16) -> Begun
    requires { (at + 2 ≤ length work.old) × (r < task_limit) }
    ensures { Laid at (task_word r whole ∷ []) result work.old work.new }
{
    words::write16(work, at, Step::task(r, Step::WHOLE));
    Begun { from: at, tasks: 1 }
}

// A run of left steps from rule a to rule b: the C of each join on the way around all before it.
fn left_run(work: &mut [u8], n: u16, x: Begun, a: u16, b: u16) -> Begun
    requires { LeftRun n a b x work.old }
    ensures { let s = work.old in
        Grown (kept_run s n a b (tasks_of s x)) x result s work.new }
{
    let mut y = x;
    let mut at = a;
    for _ in 0..n {
        if at == b {
            return y;
        }
        match work_rows::rule_at(work, at) {
            Rule::Join { outer, inner } => {
                y = around(work, y, inner);
                at = outer;
            }
            _ => return y,
        }
    }
    y
}

// Whether a cell of this kind is a run.
fn is_run(kind: u16) -> bool
    ensures { result ≡ is_run kind }
{
    (kind == Cell::LEFT) | (kind == Cell::RIGHT)
}

// The number of cells without the runs on top.
fn below_runs(cursor: &[u8], k: usize) -> usize
    requires { Lies cursor.now k }
    ensures { RunsAbove cursor.now result k }
{
    for i in (1..=k).rev() {
        if !is_run(Cell::read(cursor, i).kind) {
            return i;
        }
    }
    0
}

// A run's cell: a run of left steps is taken, one of right steps adds nothing.
fn over_run(work: &mut [u8], cursor: &[u8], n: u16, x: Begun, j: usize) -> Begun
    requires { CellRun n j cursor.now x work.old }
    ensures { let s = work.old in
        Grown (over_run (kept_run s n) (cell_at cursor.now j) (tasks_of s x)) x result s work.new }
{
    let cell = Cell::read(cursor, j);
    if cell.kind == Cell::LEFT {
        return left_run(work, n, x, cell.one, cell.two);
    }
    x
}

// The runs above cell i, from below.
fn over_runs(work: &mut [u8], cursor: &[u8], n: u16, x: Begun, i: usize, k: usize) -> Begun
    requires { CellRuns n i k cursor.now x work.old }
    ensures { let s = work.old in
        Grown (hole_in s n cursor.now k) x result s work.new }
{
    let mut y = x;
    for j in i..k {
        y = over_run(work, cursor, n, y, j + 1);
    }
    y
}

// What fills the hole of the spine that cell i opens: the whole C of its fill.
fn filler(work: &mut [u8], cursor: &[u8], at: usize, n: u16, i: usize) -> Begun
    requires { Openable n i cursor.now at work.old }
    ensures { let s = work.old in
        Laid at (opened_by (kept_rule s n) cursor.now i) result s work.new }
{
    let none = Begun { from: at, tasks: 0 };
    if i == 0 {
        return none;
    }
    let cell = Cell::read(cursor, i);
    if cell.kind != Cell::SPINE {
        return none;
    }
    match work_rows::rule_at(work, cell.one) {
        Rule::Fill { inner, .. } => lay(work, at, inner),
        _ => none,
    }
}

// What stands in the hole of the part at k cells.
fn hole(work: &mut [u8], cursor: &[u8], n: u16, at: usize, k: usize) -> Begun
    requires { Holed n k cursor.now at work.old }
    ensures { let s = work.old in
        Laid at (hole_in s n cursor.now k) result s work.new }
{
    let i = below_runs(cursor, k);
    let x = filler(work, cursor, at, n, i);
    over_runs(work, cursor, n, x, i, k)
}

// The tasks of the subtree at the place with k cells and rule p, on a stack that begins at an offset before it grows under it.
pub fn begin(work: &mut [u8], cursor: &[u8], n: u16, from: usize, k: usize, p: u16) -> Begun
    requires { Beginnable work.old cursor.now n from k p }
    ensures { BegunAt n from k p cursor.now result work.old work.new }
{
    match work_rows::rule_at(work, p) {
        Rule::Node { .. } => lay(work, from, p),
        Rule::Part { .. } => {
            let x = hole(work, cursor, n, from, k);
            around(work, x, p)
        }
        _ => Begun { from, tasks: 0 },
    }
}
