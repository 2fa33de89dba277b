// Spread (document 01): the text of a plan's forest.
#![tactic(auto)]

ghost use Rattle.std.specs.Prelude.{◌≡◌};
ghost use Rattle.spread.specs.Answer.{Fitting, Answerable, Answered};
ghost use Rattle.forest.specs.Outcome.{spread, measured_work, spread_output};

use count_all::Counts;
use plan::{Checked, Trailer};
use record::Format;
use refusal::Refusal;

// Bytes of a node's text, in each format: those that open and close it, and its label's.
const NARROW_NODE: u64 = 3;

const WIDE_NODE: u64 = 5;

// Whether the text of a forest with these counts fits the output.
fn fits(counts: Counts, room: usize, format: Format) -> bool
    ensures { Fitting format counts room result }
{
    if counts.above() {
        return false;
    }
    match format {
        Format::Narrow => counts.nodes <= (room as u64) / NARROW_NODE,
        Format::Wide => counts.nodes <= (room as u64) / WIDE_NODE,
    }
}

// The answer for rule r of the rules in the rows: measured first, then written.
fn answer(work: &mut [u8], out: &mut [u8], n: u16, r: u16, format: Format) -> Result<usize, Refusal>
    requires { Answerable work.old n r }
    ensures { Answered format n r result work.old work.new out.old out.new }
{
    let counts = count_all::count(work, n, r);
    if !fits(counts, out.len(), format) {
        return Err(Refusal::Room);
    }
    spread_stack::task_rows(work, n);
    Ok(spread_stack::spread_rule(work, out, n, r, format))
}

// Spread a plan: its text and the length of it, or why it is turned down.
pub fn spread(plan: &[u8], work: &mut [u8], out: &mut [u8]) -> Result<usize, Refusal>
    ensures { (result ≡ spread plan.now work.old out.old)
        × (work.new ≡ measured_work plan.now work.old)
        × (out.new ≡ spread_output plan.now work.old out.old) }
{
    let Checked { n, start } = work_load::load_plan(plan, work)?;
    let format = Trailer::format(plan);
    let answer = answer(work, out, n, start, format);
    work_rows::clear_work(work, n);
    answer
}
