// The grams of a plan (document 02, Note 8), without spreading it: the sum over all nodes of its forest of what each label's row says.
#![tactic(auto)]

ghost use Rattle.std.specs.Prelude.{ℕ, ◌≡◌};
ghost use Rattle.count_capped.specs.Count.{capped};
ghost use Rattle.grams.specs.Grams.{sum_judged, weighed, weighed_work};
ghost use Rattle.grams.specs.Steps.{loaded_rules, Answerable, Answered};

use count_capped::Count;
use label_rows::LabelRow;
use plan::Checked;
use refusal::Refusal;

// The number of rules in the rows: none where the plan or what it comes with is turned down.
fn loaded(ready: Result<Checked, Refusal>) -> u16
    ensures { result ≡ loaded_rules ready }
{
    match ready {
        Ok(Checked { n, .. }) => n,
        Err(_) => 0,
    }
}

// The answer for a sum.
fn given(sum: Count) -> Result<u64, Refusal>
    ensures { (g : ℕ) → sum ≡ capped g → result ≡ sum_judged g }
{
    sum.number().ok_or(Refusal::Room)
}

// The answer for the rules in the rows, whose words say what their own labels weigh, and the work cleared; or why there is none.
fn answer(work: &mut [u8], ready: Result<Checked, Refusal>) -> Result<u64, Refusal>
    requires { Answerable work.old ready }
    ensures { Answered work.old work.new ready result }
{
    let Checked { n, start } = ready?;
    let sum = count_weights::total(work, n, start);
    work_rows::clear_work(work, n);
    given(sum)
}

// The grams of a plan by a list of label rows: the plan and the list are judged, the rules go to the rows of work, each row is told what its
// rule's own label weighs, and the start rule's sum is made.
pub fn grams(plan: &[u8], rows: &[LabelRow], work: &mut [u8]) -> Result<u64, Refusal>
    ensures { let work' = work.new in
        let plan = plan.now in
        let rows = rows.now in
        let work = work.old in
        (result ≡ weighed plan rows work) × (work' ≡ weighed_work plan rows work) }
{
    let judged = plan::check(plan);
    let listed = list_judge::judge_list(judged, rows);
    let ready = work_load::load_judged(plan, listed, work);
    let n = loaded(ready);
    label_annotate::annotate(rows, 0, work, n);
    answer(work, ready)
}
