// A list of label rows judged behind a plan (document 02, Note 5: "after the plan's own check where a plan is lent too").
#![tactic(auto)]

ghost use Rattle.std.specs.Prelude.{◌≡◌};
ghost use Rattle.label_rows.specs.Coverage.{coverage};
ghost use Rattle.list_judge.specs.Listed.{list_judged};

use label_rows::LabelRow;
use plan::Checked;
use refusal::Refusal;

// n and start of a plan, unless it or the list is turned down; the list is read where the plan is accepted.
pub fn judge_list(judged: Result<Checked, Refusal>, rows: &[LabelRow]) -> Result<Checked, Refusal>
    ensures { result ≡ list_judged (coverage rows.now) judged }
{
    let plan = judged?;
    label_rows::check(rows)?;
    Ok(plan)
}
