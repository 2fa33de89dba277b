// What a walk is lent, tested: enough of each slice (8), and no byte that is no letter (9); and what is lent where no letters are answered.
#![tactic(auto)]

ghost use Rattle.std.specs.Prelude.{◌≡◌};
ghost use Rattle.plan.specs.Check.{checked};
ghost use Rattle.forest.specs.Walk.{first_other, enough_cursor, enough_answers, enough_lent, lent_judged};

use letter::Letter;
use place_cells::Cell;
use plan::Checked;
use refusal::Refusal;

// Where the first byte that is no letter stands, if there is one.
pub fn first_other(letters: &[u8]) -> Option<usize>
    ensures { result ≡ first_other letters.now 0 }
{
    letters
        .iter()
        .position(|&byte| letter::letter_of(byte).is_none())
}

// Whether the cursor has the words that n rules need.
pub fn enough_cursor(cursor: &[u8], n: u16) -> bool
    ensures { result ≡ enough_cursor n cursor.now }
{
    Cell::WORDS * Cell::A_RULE * (n as usize + 1) <= words::word_count(cursor)
}

// Whether each letter has a word of answers.
fn enough_answers(letters: &[u8], answers: &[u8]) -> bool
    ensures { result ≡ enough_answers letters.now answers.now }
{
    letters.len() <= answers.len() / Letter::ANSWER_LENGTH
}

// Whether n rules have enough of work and cursor, and each letter a word of answers.
pub fn enough_lent(work: &[u8], cursor: &[u8], letters: &[u8], answers: &[u8], n: u16) -> bool
    ensures { let work = work.entry.now in
        let cursor = cursor.entry.now in
        let letters = letters.entry.now in
        let answers = answers.entry.now in
        result ≡ enough_lent work cursor letters answers n }
{
    work_rows::enough_work(work, n) & (enough_cursor(cursor, n) & enough_answers(letters, answers))
}

// A plan judged, and then the work and the cursor that are lent with it: n and start, or the refusal.
pub fn judge(plan: &[u8], work: &[u8], cursor: &[u8]) -> Result<Checked, Refusal>
    ensures { result ≡ lent_judged work.now cursor.now (checked plan.now) }
{
    let checked = plan::check(plan)?;
    if work_rows::enough_work(work, checked.n) & enough_cursor(cursor, checked.n) {
        return Ok(checked);
    }
    Err(Refusal::Lent)
}
