// The path of the node that a stored place leads to (document 02, Note 12), past the tests of the plan and of what is lent with it.
#![tactic(auto)]

ghost use Rattle.std.specs.Prelude.{◌*◌};
ghost use Rattle.plan.specs.Check.{rules_of};
ghost use Rattle.forest.specs.Walk.{place_judged};
ghost use Rattle.work_rows.specs.Rows.{work_length, Within};
ghost use Rattle.letter_moves.specs.Standing.{rules_kept};
ghost use Rattle.transfer_trace.specs.Trace.{Climbable, Traceable, Origins};

use plan::Checked;
use refusal::Refusal;
use work_rows::Row;

// The path of the stored place, on the rows of the plan's rules, unless its node is too far: a place that is none is turned down.
fn trace_rows(
    rows: &[u8],
    cursor: &[u8],
    path: &mut [u8],
    n: u16,
    start: u16,
) -> Result<Option<usize>, Refusal>
    requires { Climbable start n rows.now cursor.now path.old }
    ensures { let t = rows.now in
        Origins (place_judged (rules_kept t) n start cursor.now) path.old path.new result }
{
    let opened = place_open::open(rows, cursor, Checked { n, start })?;
    Ok(transfer_climb::climb(rows, path, cursor, opened.at.used))
}

// The path of the stored place of an accepted plan, past 8: the rows are filled with the plan's rules, what is known of each, and their trees.
pub fn trace(
    plan: &[u8],
    work: &mut [u8],
    cursor: &[u8],
    path: &mut [u8],
    n: u16,
    start: u16,
) -> Result<Option<usize>, Refusal>
    requires { Traceable plan.now n start work.old cursor.now path.old }
    ensures { let work' = work.exit.now in
        let work = work.entry.now in
        Origins (place_judged (rules_of plan.now) n start cursor.now) path.old path.new result
        × Within 0 (work_length * n) work work' }
{
    facts_load::load(plan, work, n);
    tops_rows::tops_rows(work, n);
    let rows = &work[..Row::LENGTH * (n as usize)];
    trace_rows(rows, cursor, path, n, start)
}
