// Measure (document 01): the trees, entries and levels of a plan's forest.
#![tactic(auto)]

ghost use Rattle.std.specs.Prelude.{◌≡◌};
ghost use Rattle.forest.specs.Outcome.{measured, measured_work};
ghost use Rattle.count_all.specs.Rows.{Countable};
ghost use Rattle.measure.specs.Answer.{Answered};

use forest::Measured;
use plan::Checked;
use refusal::Refusal;

// The answer for rule r of the rules in the rows.
fn answer(work: &mut [u8], n: u16, r: u16) -> Result<Measured, Refusal>
    requires { Countable work.old n r }
    ensures { Answered n r result work.old work.new }
{
    let counts = count_all::count(work, n, r);
    if counts.above() {
        return Err(Refusal::Room);
    }
    Ok(Measured {
        trees: counts.tops,
        entries: counts.entries,
        levels: counts.levels,
    })
}

// Measure a plan: its trees, entries (all nodes) and levels, or why it is turned down.
pub fn measure(plan: &[u8], work: &mut [u8]) -> Result<Measured, Refusal>
    ensures { (result ≡ measured plan.now work.old)
        × (work.new ≡ measured_work plan.now work.old) }
{
    let Checked { n, start } = work_load::load_plan(plan, work)?;
    let answer = answer(work, n, start);
    work_rows::clear_work(work, n);
    answer
}
