// The client's copy (document 02, Note 6): a new plan without the entries that a client of a class must not see, nor anything under them.
#![tactic(auto)]

ghost use Rattle.std.specs.Prelude.{ℕ, ◌≡◌, ◌&&◌, List, length, leb};
ghost use Rattle.plan.specs.Check.{checked};
ghost use Rattle.forest.specs.Outcome.{enough_work};
ghost use Rattle.copy_plan.specs.Bytes.{copy_room};
ghost use Rattle.copy.specs.Copy.{class_judged, count_judged, lent_judged, copy_judged, Copies, CopyOutcome};
ghost use Rattle.copy.specs.Made.{Makeable};

use label_rows::LabelRow;
use plan::{Checked, Trailer};
use refusal::Refusal;

// The largest number of rules of a plan that is copied.
const MOST_COPIED: u16 = 4096;

// Bytes of output that a rule needs.
const COPY_LENGTH: usize = 40;

// The plan judged, and then the class.
fn judge_class(plan: &[u8], class: u16) -> Result<Checked, Refusal>
    ensures { result ≡ class_judged class (checked plan.now) }
{
    let checked = plan::check(plan)?;
    if LabelRow::LARGEST_CLASS < class {
        return Err(Refusal::Row(0));
    }
    Ok(checked)
}

// Whether n rules have enough work and output, of so many bytes each.
#[tactic(auto, unfolding(forest::specs::Outcome::enough_work))]
fn enough_lent(n: u16, work: usize, out: usize) -> bool
    ensures { (s : List ℕ) → length s ≡ work → result ≡ (enough_work n s && leb (copy_room n) out) }
{
    (work_rows::work_words(n) <= work / 2) & (COPY_LENGTH * (n as usize) + Trailer::LENGTH <= out)
}

// What is judged behind the list: the number of rules, and then what is lent, of so many bytes each.
fn judge_lent(listed: Result<Checked, Refusal>, work: usize, out: usize) -> Result<Checked, Refusal>
    ensures { (s t : List ℕ) → length s ≡ work → length t ≡ out → result ≡ lent_judged s t (count_judged listed) }
{
    let Checked { n, start } = listed?;
    if MOST_COPIED < n {
        return Err(Refusal::TooMany);
    }
    if enough_lent(n, work, out) {
        return Ok(Checked { n, start });
    }
    Err(Refusal::Lent)
}

// The copy, where nothing is turned down: the rules go to the rows of work, each row is told whether the client may see its label, and the
// copy of the rows is written.
fn make(
    plan: &[u8],
    rows: &[LabelRow],
    class: u16,
    work: &mut [u8],
    out: &mut [u8],
    n: u16,
    start: u16,
) -> Result<usize, Refusal>
    requires { Makeable plan.now rows.now n start work.old out.old }
    ensures { let work' = work.new in
        let out' = out.new in
        Copies plan.now rows.now class n start work.old work' out.old out' result }
{
    work_load::arrange(plan, work, n);
    label_annotate::annotate(rows, class, work, n);
    copy_write::write_copy(work, out, n, start)
}

// The copy of a plan for a client of a class, by a list of label rows, at the front of out: its length, or why it is turned down.
pub fn copy(
    plan: &[u8],
    rows: &[LabelRow],
    class: u16,
    work: &mut [u8],
    out: &mut [u8],
) -> Result<usize, Refusal>
    ensures { let work' = work.new in
        let out' = out.new in
        let plan = plan.now in
        let rows = rows.now in
        let work = work.old in
        let out = out.old in
        CopyOutcome (copy_judged plan rows class work out) plan rows class work work' out out' result }
{
    let judged = judge_class(plan, class);
    let listed = list_judge::judge_list(judged, rows);
    let Checked { n, start } = judge_lent(listed, work.len(), out.len())?;
    make(plan, rows, class, work, out, n, start)
}
