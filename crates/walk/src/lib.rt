// Walk (document 01).
#![tactic(auto)]

ghost use Rattle.std.specs.Prelude.{◌≡◌, ◌*◌};
ghost use Rattle.plan.specs.declared.Checked.{Checked};
ghost use Rattle.plan.specs.Check.{checked, rules_of};
ghost use Rattle.forest.specs.Walk.{first_other, place_judged, letters_judged};
ghost use Rattle.demand.specs.Calls.{walk_of, lends, leaves};
ghost use Rattle.work_rows.specs.Rows.{work_length, Within};
ghost use Rattle.walk.specs.Calls.{Lendable};
ghost use Rattle.walk_place.specs.Travel.{Walks};

use plan::Checked;
use refusal::Refusal;
use work_rows::Row;

// Letters on an accepted plan, past 8 and 9.
fn walk_letters(
    plan: &[u8],
    work: &mut [u8],
    cursor: &mut [u8],
    letters: &[u8],
    answers: &mut [u8],
    accepted: Checked,
) -> Result<(), Refusal>
    requires { Lendable plan.now accepted.n accepted.start work.old cursor.old letters.now answers.old }
    ensures { let cursor' = cursor.exit.now in
        let answers' = answers.exit.now in
        let work' = work.exit.now in
        let plan = plan.entry.now in
        let cursor = cursor.entry.now in
        let letters = letters.entry.now in
        let answers = answers.entry.now in
        let work = work.entry.now in
        Walks (rules_of plan) (place_judged (rules_of plan) accepted.n accepted.start cursor) letters cursor cursor' answers answers' result
        × Within 0 (work_length * accepted.n) work work' }
{
    facts_load::load(plan, work, accepted.n);
    let rows = &work[..Row::LENGTH * (accepted.n as usize)];
    walk_place::travel(rows, cursor, letters, answers, accepted)
}

// Bytes on an accepted plan, past 8: the first that is no letter is turned down.
fn walk_bytes(
    plan: &[u8],
    work: &mut [u8],
    cursor: &mut [u8],
    letters: &[u8],
    answers: &mut [u8],
    accepted: Checked,
) -> Result<(), Refusal>
    requires { Lendable plan.now accepted.n accepted.start work.old cursor.old letters.now answers.old }
    ensures { let cursor' = cursor.exit.now in
        let answers' = answers.exit.now in
        let work' = work.exit.now in
        let plan = plan.entry.now in
        let letters = letters.entry.now in
        let cursor = cursor.entry.now in
        let answers = answers.entry.now in
        let work = work.entry.now in
        Walks (rules_of plan) (letters_judged (first_other letters 0) (place_judged (rules_of plan) accepted.n accepted.start cursor))
        letters cursor cursor' answers answers' result
        × Within 0 (work_length * accepted.n) work work' }
{
    match walk_lent::first_other(letters) {
        Some(i) => Err(Refusal::Letter(i)),
        None => walk_letters(plan, work, cursor, letters, answers, accepted),
    }
}

// Walk on an accepted plan: what is lent is tested, the work is filled and cleared.
fn walk_rules(
    plan: &[u8],
    work: &mut [u8],
    cursor: &mut [u8],
    letters: &[u8],
    answers: &mut [u8],
    accepted: Checked,
) -> Result<(), Refusal>
    requires { checked plan.now ≡ Ok accepted }
    ensures { let work' = work.exit.now in
        let cursor' = cursor.exit.now in
        let answers' = answers.exit.now in
        let plan = plan.entry.now in
        let work = work.entry.now in
        let cursor = cursor.entry.now in
        let letters = letters.entry.now in
        let answers = answers.entry.now in
        leaves result work' cursor' answers' ≡ walk_of (lends plan work cursor letters answers) }
{
    if !walk_lent::enough_lent(work, cursor, letters, answers, accepted.n) {
        return Err(Refusal::Lent);
    }
    let answer = walk_bytes(plan, work, cursor, letters, answers, accepted);
    work_rows::clear_work(work, accepted.n);
    answer
}

// Walk a plan's forest by letters from the place that the cursor holds: the answers are written and the place is stored, or why it
// is turned down.
pub fn walk(
    plan: &[u8],
    work: &mut [u8],
    cursor: &mut [u8],
    letters: &[u8],
    answers: &mut [u8],
) -> Result<(), Refusal>
    ensures { let work' = work.exit.now in
        let cursor' = cursor.exit.now in
        let answers' = answers.exit.now in
        let plan = plan.entry.now in
        let work = work.entry.now in
        let cursor = cursor.entry.now in
        let letters = letters.entry.now in
        let answers = answers.entry.now in
        leaves result work' cursor' answers' ≡ walk_of (lends plan work cursor letters answers) }
{
    let accepted = plan::check(plan)?;
    walk_rules(plan, work, cursor, letters, answers, accepted)
}
